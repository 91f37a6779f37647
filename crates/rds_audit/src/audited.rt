//! The services that are audited: the lengths at which a byte may stand in a value.
ghost use Rattle.std.specs.Prelude.{◌≡◌, ◌*◌, ◌<◌, ◌≤◌, ◌^◌, ℕ, Bool, false, nat_le, nat_lt, if◌then◌else◌};
ghost use Rattle.rds_audit.specs.Lengths.{Gauge, limit_at, limit_from, may_stand, those};

use rds_assembly::{CARRIAGE_RETURN, is_text_byte};

/// The lengths that a segment leaves, a bit for each of 0 to 64, and whether some value has it beside the segments before
/// it.
#[derive(Clone, Copy)]
pub(crate) struct Measured {
    pub(crate) lengths: u128,
    pub(crate) fits: bool,
}

/// A service that is audited: texts, texts with padding, or names.
pub(crate) trait Audited {
    ghost gauge: { Gauge };

    ghost LENGTHS: { ℕ };

    ghost BENDS: { Bool };

    /// The lengths of values.
    const LENGTHS: u128;

    /// Whether a value can have two segments with other bytes at one address.
    const BENDS: bool;

    /// Returns the lengths of the values in which this byte may stand at this place.
    fn lengths_with(place: u8, byte: u8) -> u128
        requires { place < 64 }
        ensures { result ≡ those (λ n. gauge.may n place byte) 65 };

    ghost lengths: { gauge.lengths ≡ LENGTHS };

    ghost bends: { gauge.bends ≡ BENDS };

    /// An address has at most four bits.
    ghost few: { gauge.segments ≤ 16 };

    ghost some: { 0 < gauge.lengths };
}

/// The texts, in groups 2A.
pub(crate) struct Texts;

impl Audited for Texts {
    ghost use Rattle.std.specs.Prelude.{◌-◌, refl};
    ghost use Rattle.rds_assembly.specs.ServiceLaws.{sixteen_are_few};
    ghost use Rattle.rds_audit.specs.Lengths.{text_gauge, texts_have_lengths};

    ghost gauge = { text_gauge };

    ghost LENGTHS = { 2 ^ 65 - 1 };

    ghost BENDS = { false };

    const LENGTHS: u128 = (1 << 65) - 1;

    const BENDS: bool = false;

    ghost lengths = { refl };

    ghost bends = { refl };

    ghost few = { sixteen_are_few };

    ghost some = { texts_have_lengths };

    // Not inlined: its numbers of 128 bits would stay in the frame of the caller.
    #[inline(never)]
    fn lengths_with(place: u8, byte: u8) -> u128 {
        let text = if_so(is_text_byte(byte), from(place + 1));
        let end = if_so(byte == CARRIAGE_RETURN, from(place) & below(place + 1));
        let rest = if_so(byte == b' ', from(place / 4 * 4) & below(place));
        text | end | rest
    }
}

/// The texts with padding, in groups 2A: behind its carriage return a text may have any bytes.
pub(crate) struct PaddedTexts;

impl Audited for PaddedTexts {
    ghost use Rattle.std.specs.Prelude.{◌-◌, refl, true};
    ghost use Rattle.rds_assembly.specs.ServiceLaws.{sixteen_are_few};
    ghost use Rattle.rds_audit.specs.Lengths.{padded_gauge, texts_have_lengths};

    ghost gauge = { padded_gauge };

    ghost LENGTHS = { 2 ^ 65 - 1 };

    ghost BENDS = { true };

    const LENGTHS: u128 = (1 << 65) - 1;

    const BENDS: bool = true;

    ghost lengths = { refl };

    ghost bends = { refl };

    ghost few = { sixteen_are_few };

    ghost some = { texts_have_lengths };

    // Not inlined: its numbers of 128 bits would stay in the frame of the caller.
    #[inline(never)]
    fn lengths_with(place: u8, byte: u8) -> u128 {
        let text = if_so(is_text_byte(byte), from(place + 1));
        let end = if_so(byte == CARRIAGE_RETURN, from(place) & below(place + 1));
        text | end | below(place)
    }
}

/// The programme type names, in groups 10A.
pub(crate) struct Names;

impl Audited for Names {
    ghost use Rattle.std.specs.Prelude.{refl};
    ghost use Rattle.rds_assembly.specs.ServiceLaws.{two_are_few};
    ghost use Rattle.rds_audit.specs.Lengths.{name_gauge, names_have_lengths};

    ghost gauge = { name_gauge };

    ghost LENGTHS = { 2 ^ 8 };

    ghost BENDS = { false };

    const LENGTHS: u128 = 1 << 8;

    const BENDS: bool = false;

    ghost lengths = { refl };

    ghost bends = { refl };

    ghost few = { two_are_few };

    ghost some = { names_have_lengths };

    #[tactic(auto, using(crate::proofs::LengthSets::name_those))]
    fn lengths_with(place: u8, byte: u8) -> u128 {
        if_so(byte >= b' ', from(place + 1))
    }
}

/// Returns the lengths if this is so, and otherwise none.
fn if_so(is_so: bool, lengths: u128) -> u128
    ensures { result ≡ if is_so then lengths else 0 }
{
    if is_so { lengths } else { 0 }
}

/// Returns the lengths below this one.
#[tactic(auto, using(crate::proofs::LengthSets::below_bits))]
fn below(length: u8) -> u128
    requires { length ≤ 65 }
    ensures { result ≡ those (λ n. nat_lt n length) 65 }
{
    (1 << length) - 1
}

/// Returns the lengths from this one on.
#[tactic(auto, using(crate::proofs::LengthSets::from_bits, crate::proofs::LengthSets::from_fits))]
fn from(length: u8) -> u128
    requires { length ≤ 65 }
    ensures { result ≡ those (λ n. nat_le length n) 65 }
{
    (1 << 65) - (1 << length)
}

/// Returns the lengths of the values in which these bytes may stand at this address.
// Not inlined, like `lengths_with`.
#[inline(never)]
pub(crate) fn lengths_at<S: Audited>(address: u8, bytes: [u8; 4]) -> u128
    requires { address < 16 }
    ensures { result ≡ those (λ n. may_stand S.gauge n (4 * address) bytes) 65 }
{
    let first = 4 * address;
    S::lengths_with(first, bytes[0])
        & S::lengths_with(first + 1, bytes[1])
        & S::lengths_with(first + 2, bytes[2])
        & S::lengths_with(first + 3, bytes[3])
}

/// Returns the lengths of a value whose segment at the address was sent with these other bytes too: those below the first
/// place in which they differ, or none if the service does not bend.
pub(crate) fn lengths_beside<S: Audited>(address: u8, held: Option<[u8; 4]>, bytes: [u8; 4]) -> u128
    requires { address < 16 }
    ensures { result ≡ those (λ n. nat_lt n (limit_at S.gauge.bends address held bytes)) 65 }
{
    let Some(held) = held else {
        return below(65);
    };
    if !S::BENDS {
        return below(0);
    }
    below(limit_of(4 * address, held, bytes))
}

/// Returns the first place in which these bytes differ, which begin at this place. 65 if they are the same.
fn limit_of(first: u8, held: [u8; 4], bytes: [u8; 4]) -> u8
    requires { first ≤ 60 }
    ensures limit { result ≡ limit_from first held bytes }
    ensures most { result ≤ 65 }
{
    if held[0] != bytes[0] {
        first
    } else if held[1] != bytes[1] {
        first + 1
    } else if held[2] != bytes[2] {
        first + 2
    } else if held[3] != bytes[3] {
        first + 3
    } else {
        65
    }
}
