//! Text of the user's, as it stands in a line.
ghost use Rattle.std.specs.Prelude.{◌≡◌, ◌<◌, ◌++◌, IfOk, OnOk, string_bytes};
ghost use Rattle.std.specs.Char.{digit_char, encode_utf8};
ghost use Rattle.tor_report.specs.Escape.{escape_byte, escaped, escaped_bytes, in_ascii, is_escaped, printable};

use std::alloc::{AllocError, Global};
use std::str;

/// The text in one line: the bytes 0 to 31, 127 and the backslash are written out, each as a backslash, `x` and two
/// hexadecimal digits.
pub fn escaped(alloc: Global, text: &str) -> Result<String, AllocError>
    ensures { IfOk result (λ line. string_bytes line ≡ escaped text.now) }
{
    let mut line = String::new(alloc);
    for c in text.chars() {
        push_escaped(&mut line, c)?;
    }
    Ok(line)
}

fn push_escaped(line: &mut String, c: char) -> Result<(), AllocError>
    ensures { OnOk result (string_bytes line.new ≡ string_bytes line.old ++ escaped (encode_utf8 c)) }
{
    if is_escaped(c) {
        line.push_str("\\x")?;
        line.push(hex_digit(c as u32 / 16))?;
        line.push(hex_digit(c as u32 % 16))
    } else {
        line.push(c)
    }
}

fn is_escaped(c: char) -> bool
    ensures { result ≡ is_escaped c }
{
    matches!(c, '\0'..='\x1f' | '\x7f' | '\\')
}

fn hex_digit(value: u32) -> char
    requires { value < 16 }
    ensures { result ≡ digit_char value }
{
    match char::from_digit(value, 16) {
        Some(digit) => digit,
        None => unreachable!(),
    }
}

/// The bytes in one line, if they are text as `escaped` has it. If they are none, each byte that is not of ASCII is
/// written out too.
pub fn escaped_bytes(alloc: Global, bytes: &[u8]) -> Result<String, AllocError>
    ensures { IfOk result (λ line. string_bytes line ≡ escaped_bytes bytes.now) }
{
    match str::from_utf8(bytes) {
        Ok(text) => escaped(alloc, text),
        Err(_) => in_ascii(alloc, bytes),
    }
}

/// The bytes as text, if they are text; if they are none, as `escaped_bytes` has them.
pub fn printable(alloc: Global, bytes: &[u8]) -> Result<String, AllocError>
    ensures { IfOk result (λ text. string_bytes text ≡ printable bytes.now) }
{
    match str::from_utf8(bytes) {
        Ok(text) => String::from_str(alloc, text),
        Err(_) => in_ascii(alloc, bytes),
    }
}

/// The bytes in one line of ASCII.
fn in_ascii(alloc: Global, bytes: &[u8]) -> Result<String, AllocError>
    ensures { IfOk result (λ line. string_bytes line ≡ in_ascii bytes.now) }
{
    let mut line = String::new(alloc);
    'bytes: for byte in bytes {
        push_byte(&mut line, *byte)?;
    }
    Ok(line)
}

fn push_byte(line: &mut String, byte: u8) -> Result<(), AllocError>
    ensures { OnOk result (string_bytes line.new ≡ string_bytes line.old ++ escape_byte byte) }
{
    if byte < 128 {
        push_escaped(line, byte as char)
    } else {
        line.push_str("\\x")?;
        line.push(hex_digit(u32::from(byte) / 16))?;
        line.push(hex_digit(u32::from(byte) % 16))
    }
}
