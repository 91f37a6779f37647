//! The two kinds of output of a script.
ghost use Rattle.std.specs.Prelude.{◌≡◌, ◌≤◌, ◌↔◌, IsTrue};
ghost use Rattle.rds_world.specs.declared.event.TheConstants.{MOST_RECEIVERS};

use rds_fields::TagGroup;
use rds_world::Config;

/// The output for the slots of a script.
#[derive(Clone, Copy)]
pub enum Form {
    /// The replies, the groups, and the changes at each receiver (`sim`).
    Simulation {
        /// Whether the line of a text or a name that a receiver does not show any more says why.
        says_why: bool,
        /// The group type that the tags are sent in.
        rtplus: TagGroup,
        /// For how many slots the displays of the receivers keep a text and a name.
        keep: u16,
    },
    /// A log of the groups, with the replies as comments and without receivers (`encode`).
    Log {
        /// The group type that the tags are sent in.
        rtplus: TagGroup,
    },
}

impl Form {
    ghost use Rattle.rds_script.specs.Outcomes.{keep_of};
    ghost use Rattle.rds_script.specs.Rows.{IsAllowed};

    /// Returns for how many slots the displays keep a text and a name. Those of radios with the flag bit alone keep
    /// none: they are compared with what is on air.
    pub(crate) fn keep(&self, config: &Config) -> u16
        ensures { result ≡ keep_of self.now config.now }
    {
        match self {
            Form::Simulation { keep, .. } if !config.kind.is_flag_alone => *keep,
            Form::Simulation { .. } | Form::Log { .. } => 0,
        }
    }

    /// Returns whether a row may name this many receivers, of those that a world can have.
    pub(crate) fn allows(&self, receivers: usize) -> bool
        requires { receivers ≤ MOST_RECEIVERS }
        ensures { IsTrue result ↔ IsAllowed self.now receivers }
    {
        match self {
            Form::Simulation { .. } => true,
            Form::Log { .. } => receivers == 0,
        }
    }
}
