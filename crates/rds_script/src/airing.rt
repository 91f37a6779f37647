//! Whether what a receiver shows was on air.
ghost use Rattle.std.specs.Prelude.{◌≡◌, Bool, false};
ghost use Rattle.rds_script.specs.OnAir.{airing_by, airings_by};
ghost use Rattle.rds_script.specs.Inside.Compared.{parts_on_air, was_on_air};

use rds_view_lines::Parts;

/// Whether what a receiver shows of a part was on air.
#[derive(Clone, Copy, Default)]
pub(crate) enum Airing {
    /// It was on air in one of the last d slots, or nothing is shown.
    #[default]
    OnAir,
    /// The station sent this tag for a text that was on air in the last d slots, and replaced it.
    Replaced,
    /// It was on air before.
    Old,
    /// It was never on air.
    Mix,
}

/// The same for the text, the name and each of the two tags of a view.
#[derive(Clone, Copy, Default)]
pub(crate) struct Airings {
    pub(crate) text: Airing,
    pub(crate) name: Airing,
    pub(crate) one: Airing,
    pub(crate) two: Airing,
}

impl Airings {
    /// Decides by the parts that were on air in one of the last d slots, for a text of these slots, and in any slot.
    pub(crate) fn by(lately: Parts, for_text: Parts, ever: Parts) -> Airings
        ensures { result ≡ airings_by lately for_text ever }
    {
        Airings {
            text: airing_by(lately.text, false, ever.text),
            name: airing_by(lately.name, false, ever.name),
            one: airing_by(lately.one, for_text.one, ever.one),
            two: airing_by(lately.two, for_text.two, ever.two),
        }
    }

    /// Returns which parts were on air in any slot.
    pub(crate) fn ever(self) -> Parts
        ensures { result ≡ parts_on_air self }
    {
        Parts {
            text: self.text.was_on_air(),
            name: self.name.was_on_air(),
            one: self.one.was_on_air(),
            two: self.two.was_on_air(),
        }
    }
}

impl Airing {
    fn was_on_air(self) -> bool
        ensures { result ≡ was_on_air self }
    {
        match self {
            Airing::OnAir | Airing::Replaced | Airing::Old => true,
            Airing::Mix => false,
        }
    }
}

fn airing_by(lately: bool, for_text: bool, ever: bool) -> Airing
    ensures { result ≡ airing_by lately for_text ever }
{
    match (lately, for_text, ever) {
        (true, _, _) => Airing::OnAir,
        (false, true, _) => Airing::Replaced,
        (false, false, true) => Airing::Old,
        (false, false, false) => Airing::Mix,
    }
}
