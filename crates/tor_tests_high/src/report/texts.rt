//! Texts that are longer than the buffer, of 65,536 bytes.
use crate::report::narrow::{Narrow, narrow_writer};
use std::alloc::{AllocError, Global};
use tor_report::{Buffer, Segment, Spelling};
use tor_spec::WriteFault;

/// Puts ten digits so often.
fn put_digits(buffer: &mut Buffer, out: &mut Narrow, count: usize) -> Result<(), WriteFault> {
    for _ in 0..count {
        buffer.put(out, b"0123456789")?;
    }
    Ok(())
}

fn write_digits(buffer: Buffer, out: &mut Narrow, count: usize) -> Result<(), WriteFault> {
    let mut buffer = buffer;
    put_digits(&mut buffer, out, count)?;
    buffer.end(out)
}

/// How many bytes came to a writer of this room of so many times ten digits, if they are the right ones, and how many
/// the fault told, if there was one.
fn written(alloc: Global, room: usize, count: usize) -> Option<(usize, Option<u64>)> {
    let mut out = narrow_writer(alloc, 1000, room);
    let buffer = Buffer::new(alloc).ok()?;
    let fault = match write_digits(buffer, &mut out, count) {
        Ok(()) => None,
        Err(fault) => Some(fault.written),
    };
    if !are_digits(&out.written) {
        return None;
    }
    Some((out.written.len(), fault))
}

fn are_digits(bytes: &[u8]) -> bool {
    let mut wanted = b'0';
    for byte in bytes {
        if *byte != wanted {
            return false;
        }
        wanted = match wanted {
            b'9' => b'0',
            digit => digit.wrapping_add(1),
        };
    }
    true
}

fn is_counted(alloc: Global) -> bool {
    written(alloc, 300_000, 10_000) == Some((100_000, None))
        && written(alloc, 65_546, 10_000) == Some((65_546, Some(65_546)))
        && written(alloc, 99_999, 10_000) == Some((99_999, Some(99_999)))
        && written(alloc, 0, 10_000) == Some((0, Some(0)))
        && written(alloc, 7, 0) == Some((0, None))
}

#[test]
fn counts_what_went_out(rt: HostRuntime) {
    assert!(rt; is_counted(rt.alloc()));
}

/// Whether a text of `size` bytes of 7 comes whole, behind another.
fn passes(alloc: Global, size: usize) -> bool {
    let mut out = narrow_writer(alloc, usize::MAX, usize::MAX);
    let (Ok(mut buffer), Ok(text)) = (Buffer::new(alloc), sevens(alloc, size)) else {
        return false;
    };
    buffer.put(&mut out, b"ab").is_ok()
        && buffer.put(&mut out, &text).is_ok()
        && buffer.put(&mut out, b"cd").is_ok()
        && buffer.end(&mut out).is_ok()
        && out.written.len() == size.saturating_add(4)
        && out.written.ends_with(b"7cd")
        && out.written.starts_with(b"ab7")
}

fn sevens(alloc: Global, size: usize) -> Result<Vec<u8>, AllocError> {
    let mut text = Vec::new(alloc);
    text.resize(size, b'7')?;
    Ok(text)
}

const SIZES: &[usize] = &[1, 65_533, 65_534, 65_535, 65_536, 65_537, 200_000];

#[test]
fn passes_long_texts(rt: HostRuntime) {
    for size in SIZES {
        assert!(rt; passes(rt.alloc(), *size));
    }
}

/// Whether these segments are this text.
fn is_text(alloc: Global, segments: &[Segment], text: &str) -> bool {
    let mut out = Vec::new(alloc);
    let Ok(mut buffer) = Buffer::new(alloc) else {
        return false;
    };
    buffer.put_all(&mut out, segments).is_ok()
        && buffer.end(&mut out).is_ok()
        && out.as_slice() == text.as_bytes()
}

const TEXT: &[u8] = b"\x08\x0c\n\r\t\"\\\x1f\x7f";

fn is_text_spelled(alloc: Global) -> bool {
    is_text(
        alloc,
        &[
            Segment::JsonString(TEXT),
            Segment::Text(" "),
            Segment::Spelled(Spelling::InLine, TEXT),
        ],
        "\"\\b\\f\\n\\r\\t\\\"\\\\\\u001f\x7f\" \\x08\\x0c\\x0a\\x0d\\x09\"\\x5c\\x1f\\x7f",
    )
}

fn are_others_spelled(alloc: Global) -> bool {
    is_text(
        alloc,
        &[
            Segment::Spelled(Spelling::InAscii, b"a\xffz\\"),
            Segment::Spelled(Spelling::AsciiInJson, b"a\xffz\\\"\x7f\x1f"),
            Segment::Spelled(Spelling::AsIs, b"\x00"),
        ],
        "a\\xffz\\x5ca\\\\xffz\\\\x5c\\\"\\\\x7f\\\\x1f\0",
    )
}

fn are_values_spelled(alloc: Global) -> bool {
    is_text(
        alloc,
        &[
            Segment::Number(0),
            Segment::Digits(b"\x00\xff\x1a"),
            Segment::Number(18_446_744_073_709_551_615),
            Segment::JsonHash("12", Some(b"\xab")),
            Segment::JsonHash("12", None),
            Segment::JsonBool(true),
            Segment::JsonBool(false),
        ],
        "000ff1a18446744073709551615\"12ab\"nulltruefalse",
    )
}

fn are_spelled(alloc: Global) -> bool {
    is_text_spelled(alloc) && are_others_spelled(alloc) && are_values_spelled(alloc)
}

#[test]
fn spells_segments(rt: HostRuntime) {
    assert!(rt; are_spelled(rt.alloc()));
}
