//! Reads the slots to lose from a command line.
ghost use Rattle.std.specs.Prelude.{◌≡◌, IfOk, None, option_map};
ghost use Rattle.rds_witness.specs.Spans as spans;
ghost use Rattle.rds_witness.specs.Spans.{ReadsOn, begun, bursts_in, reading_of, with_byte, with_digit, with_first};

use crate::burst::Burst;
use std::alloc::{AllocError, Global};

/// The greatest slot number.
const MOST_SLOT: u64 = 4_294_967_295;

/// What is read of a text of spans.
#[derive(Drop)]
struct SpanReader {
    /// The spans that ended.
    spans: Vec<Burst>,
    /// The slot after the last of them.
    next: u64,
    /// The first slot of a span that goes on after its `-`.
    first: Option<u32>,
    /// The number so far.
    number: Option<u32>,
}

impl SpanReader {
    fn new(alloc: Global) -> SpanReader
        ensures { reading_of result ≡ begun }
    {
        SpanReader {
            spans: Vec::new(alloc),
            next: 0,
            first: None,
            number: None,
        }
    }

    /// Takes a byte, and returns whether it fits.
    fn byte(&mut self, byte: u8) -> Result<bool, AllocError>
        ensures { IfOk result (λ good. ReadsOn (with_byte byte (reading_of self.old)) good self.new) }
    {
        if b'0' <= byte && byte <= b'9' {
            Ok(self.digit(byte - b'0'))
        } else if byte == b',' {
            self.end()
        } else if byte == b'-' {
            Ok(self.dash())
        } else {
            Ok(false)
        }
    }

    fn digit(&mut self, digit: u8) -> bool
        ensures { ReadsOn (with_digit digit (reading_of self.old)) result self.new }
    {
        let number = 10 * u64::from(self.number.unwrap_or(0)) + u64::from(digit);
        if number > MOST_SLOT {
            return false;
        }
        self.number = Some(number as u32);
        true
    }

    fn dash(&mut self) -> bool
        ensures { ReadsOn (with_first self.old.first self.old.number (reading_of self.old)) result self.new }
    {
        if self.first.is_some() {
            return false;
        }
        let Some(number) = self.number else {
            return false;
        };
        self.first = Some(number);
        self.number = None;
        true
    }

    /// Ends a span, and returns whether it has a slot and begins after the one before.
    fn end(&mut self) -> Result<bool, AllocError>
        ensures { IfOk result (λ good. ReadsOn (spans.span_ended (reading_of self.old)) good self.new) }
    {
        let Some(last) = self.number else {
            return Ok(false);
        };
        let first = self.first.unwrap_or(last);
        if self.next > u64::from(first) || first > last {
            return Ok(false);
        }
        self.spans.push(Burst {
            first: first as usize,
            last: last as usize,
        })?;
        self.next = u64::from(last) + 1;
        self.first = None;
        self.number = None;
        Ok(true)
    }
}

/// Reads spans of slots, as in `3-7,12`. `None` if the text is none, or if a span is not after the one before.
pub fn bursts_of(alloc: Global, text: &[u8]) -> Result<Option<Vec<Burst>>, AllocError>
    ensures { IfOk result (λ o. option_map (λ v. v.items) o ≡ bursts_in text.now) }
{
    let mut reader = SpanReader::new(alloc);
    for place in 0..text.len() {
        if !reader.byte(text[place])? {
            return Ok(None);
        }
    }
    if !reader.end()? {
        return Ok(None);
    }
    Ok(Some(reader.spans))
}
