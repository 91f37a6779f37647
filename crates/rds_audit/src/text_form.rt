//! What an encoder sends behind the end of a text.
ghost use Rattle.std.specs.Prelude.{◌≡◌};
ghost use Rattle.rds_audit.specs.AuditState.{form_if};
ghost use Rattle.rds_fields.specs.Stored.{is_set};

/// What the encoder of a log sends behind the carriage return of a text (this project's own rule).
#[derive(Clone, Copy)]
pub enum TextForm {
    /// Spaces up to the end of the segment, and no segment behind it.
    Plain,
    /// Any bytes, and any segments behind it: receivers show nothing of them.
    Padded,
}

impl TextForm {
    /// Stores the form as a bit.
    pub(crate) fn stored(self) -> u8
        ensures { form_if (is_set result) ≡ self }
    {
        match self {
            TextForm::Plain => 0,
            TextForm::Padded => 1,
        }
    }
}
