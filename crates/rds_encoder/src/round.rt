//! The round of eight turns: what each free slot is used for.
ghost use Rattle.std.specs.Prelude.{◌≡◌, ◌+◌, ◌%◌};
ghost use Rattle.rds_encoder.specs.Round.{IsTurn, turn_in};

/// What a free slot is used for.
#[derive(Clone, Copy)]
pub(crate) enum Turn {
    /// The next segment of the text.
    Text,
    /// The segment of the name with this address.
    Name(u8),
    /// The announcement of RadioText Plus.
    Announcement,
    /// The tags of the text.
    Tags,
}

/// Returns the turn at this place of the round (this project's own schedule).
pub(crate) fn turn_at(place: u8) -> Turn
    ensures value { result ≡ turn_in place }
    ensures own { IsTurn result }
{
    match place {
        1 => Turn::Name(0),
        3 => Turn::Name(1),
        5 => Turn::Announcement,
        7 => Turn::Tags,
        _ => Turn::Text,
    }
}

/// Returns the place after this one. After the last place comes the first.
pub(crate) fn place_after(place: u8) -> u8
    ensures { result ≡ (place + 1) % 8 }
{
    (place % 8 + 1) % 8
}
