//! Tests of what no clause says: the characters themselves, and readers and writers that fail.

use crate::same::same;
use rds_charset::{TextFault, push_text, read_text, write_text};
use rds_io::{
    Lines, TellingRead, TellingWrite, Told, WriteFault, digits_of_four, four_words, word_at,
};
use std::alloc::Global;
use std::io::{self, ErrorKind, Read, Write};
use std::process::Abort;
use std::test::Fail;

/// A writer that takes one byte a call, and no byte at one of its calls.
#[derive(Drop)]
struct Slow {
    held: Vec<u8>,
    calls: usize,
    idle_at: usize,
}

impl Write for Slow {
    fn write(&mut self, buf: &[u8]) -> io::Result<usize> {
        self.calls = self.calls.wrapping_add(1);
        if self.calls == self.idle_at {
            return Ok(0);
        }
        self.held.write(&buf[..buf.len().min(1)])
    }

    fn flush(&mut self) -> io::Result<()> {
        Ok(())
    }
}

/// A reader whose second read fails.
#[derive(Drop)]
struct Failing<'a> {
    left: &'a [u8],
    reads: u8,
}

impl Read for Failing<'_> {
    fn read(&mut self, buf: &mut [u8]) -> io::Result<usize> {
        self.reads = self.reads.wrapping_add(1);
        if self.reads == 2 {
            return Err(io::Error::from(ErrorKind::Other));
        }
        self.left.read(buf)
    }
}

fn printed(alloc: Global, bytes: &[u8]) -> Result<Vec<u8>, Fail> {
    let mut out = Vec::new(alloc);
    write_text(bytes, &mut Told::new(&mut out))?;
    Ok(out)
}

fn assert_printed(rt: &impl Abort, alloc: Global, bytes: &[u8], wanted: &[u8]) -> Result<(), Fail> {
    let out = printed(alloc, bytes)?;
    same(rt, out.as_slice(), wanted);
    Ok(())
}

#[test]
fn accents_and_euro(rt: HostRuntime) -> Result<(), Fail> {
    assert_printed(
        &rt,
        rt.alloc(),
        &[0x43, 0x61, 0x66, 0x82, 0x20, 0xA9],
        "Café €".as_bytes(),
    )?;

    let rows = [
        (0x20, " !"),
        (0x23, "#"),
        (
            0x25,
            "%&'()*+,-./0123456789:;<=>?@ABCDEFGHIJKLMNOPQRSTUVWXYZ[",
        ),
        (0x5D, "]"),
        (0x5F, "_"),
        (0x61, "abcdefghijklmnopqrstuvwxyz{|}"),
        (0x80, "áàéèíìóòúùÑÇ"),
        (0x90, "âäêëîïôöûüñç"),
        (0xA9, "€£$"),
        (0xC0, "ÁÀÉÈÍÌÓÒÚÙ"),
        (0xD0, "ÂÄÊËÎÏÔÖÛÜ"),
    ];
    for (first, characters) in rows {
        let bytes = bytes_from(rt.alloc(), first, characters)?;
        assert_printed(&rt, rt.alloc(), bytes.as_slice(), characters.as_bytes())?;
    }
    Ok(())
}

/// The bytes from the first on, one for each of the characters.
fn bytes_from(alloc: Global, first: u8, characters: &str) -> Result<Vec<u8>, Fail> {
    let mut bytes = Vec::new(alloc);
    let mut byte = first;
    for _ in characters.chars() {
        bytes.push(byte)?;
        byte = byte.wrapping_add(1);
    }
    Ok(bytes)
}

#[test]
fn escaped_bytes(rt: HostRuntime) -> Result<(), Fail> {
    assert_printed(&rt, rt.alloc(), &[0x22, 0x5C, 0x24], b"\\x22\\x5C\\x24")?;
    let bytes = [0x00, 0x1F, 0x5E, 0x60, 0x7E, 0x7F, 0x8C, 0xAC, 0xFF];
    assert_printed(
        &rt,
        rt.alloc(),
        &bytes,
        b"\\x00\\x1F\\x5E\\x60\\x7E\\x7F\\x8C\\xAC\\xFF",
    )
}

#[test]
fn read_back(rt: HostRuntime) {
    let mut into = [0u8; 4];
    same(&rt, read_text("\"\\xaBé", &mut into), Ok(3));
    same(&rt, into, [0x22, 0xAB, 0x82, 0]);
    let fault = TextFault::NoSuchCharacter(3);
    same(&rt, read_text("€ŽŽ\\", &mut into), Err(fault));
    same(&rt, into, [0x22, 0xAB, 0x82, 0]);
}

#[test]
fn idle_writer_is_a_fault(rt: HostRuntime) {
    let whole = "é€".as_bytes();
    for idle_at in 1..=whole.len() {
        let mut slow = Slow {
            held: Vec::new(rt.alloc()),
            calls: 0,
            idle_at,
        };
        let mut told = Told::new(&mut slow);
        same(&rt, write_text(&[0x82, 0xA9], &mut told), Err(WriteFault));
        same(&rt, told.failures(), 1);
        same(&rt, slow.calls, idle_at);
        same(&rt, slow.held.as_slice(), &whole[..idle_at - 1]);
    }
}

/// A line in bounded room: hexadecimal words, a number and a text in its printed form; and words that are read.
#[test]
fn words_of_a_line(rt: HostRuntime) {
    let mut line: Lines<64> = Lines::new();
    line.push(&digits_of_four([0xC201, 0x2140, 0x9AF0, 0x000F]));
    line.push(b" ");
    line.push_number(2140);
    line.push(b" ");
    push_text(&[0x48, 0x22], &mut line);
    same(
        &rt,
        line.bytes(),
        b"C20121409AF0000F 2140 H\\x22".as_slice(),
    );
    assert!(rt; line.has_room(37));
    assert!(rt; !line.has_room(38));
    line.clear();
    same(&rt, line.bytes(), b"".as_slice());
    same(&rt, word_at(b"c20g C201", 5), Some(0xC201));
    same(&rt, word_at(b"c20g C201", 0), None);
    let words = Some([0xC201, 0x2140, 0x4849, 0x0D20]);
    same(&rt, four_words(b"c201 2140 4849 0D20"), words);
}

/// A writer that takes no byte of an empty buffer has not failed.
#[test]
fn empty_buffer_is_no_fault(rt: HostRuntime) {
    let mut out = Vec::new(rt.alloc());
    let mut told = Told::new(&mut out);
    same(&rt, told.write_one(b""), Some(0));
    same(&rt, told.failures(), 0);
}

#[test]
fn failed_reads_are_counted(rt: HostRuntime) {
    let mut told = Told::new(Failing {
        left: b"abc",
        reads: 0,
    });
    let mut buf = [0u8; 2];
    same(&rt, told.read_one(&mut buf), Some(2));
    same(&rt, told.read_one(&mut buf), None);
    same(&rt, told.failures(), 1);
    same(&rt, told.read_one(&mut buf), Some(1));
    same(&rt, buf, [b'c', b'b']);
    same(&rt, told.read_one(&mut buf), Some(0));
    same(&rt, told.failures(), 1);
}
