//! What a terminal is shown of names in lines: no character that drives it, and none by which it shows a line in
//! another order. All output passes here; if no terminal shows it, its bytes stay as they are.
//!
//! Lines have no control byte of ASCII. But in UTF-8 there are control characters of two bytes, from U+0080 to U+009F,
//! and those that turn the direction of what follows, from U+202A to U+202E and from U+2066 to U+2069.
ghost use Rattle.std.specs.Prelude.{◌≡◌, ◌≤◌, ◌<◌, false, if◌then◌else◌, length};
ghost use Rattle.tor_cli.specs.declared.terminal.Escapes.TheVariants.{Bytes, None};

use std::io::{Result, Write};

/// How such characters are written out.
#[derive(Clone, Copy)]
pub enum Escapes {
    /// They are not: all bytes go out as they are.
    None,
    /// Each of their bytes as a backslash, `x` and two hexadecimal digits, as lines have control bytes.
    Bytes,
    /// As texts of JSON have them (RFC 8259, section 7).
    Json,
}

/// How such characters are written out on standard output, if it is a terminal, where the first of the words is the
/// program's name. Torrents, plans and paths that zero bytes end are no lines, and go out as they are.
pub fn escapes_for(words: &[&str], is_terminal: bool) -> Escapes
    ensures { is_terminal ≡ false → result ≡ None }
{
    if !is_terminal {
        return Escapes::None;
    }
    match words.get(1) {
        Some(command) if matches!(*command, "make" | "plan" | "join" | "edit") => Escapes::None,
        _ if has_flag(words, "--null") => Escapes::None,
        _ if has_flag(words, "--json") => Escapes::Json,
        _ => Escapes::Bytes,
    }
}

/// Whether a flag is among the words, before a `--`.
fn has_flag(words: &[&str], flag: &str) -> bool {
    words
        .iter()
        .take_while(|word| **word != "--")
        .any(|word| *word == flag)
}

/// How such characters are written out in lines, if they go to a terminal.
pub fn escapes_of_lines(is_terminal: bool) -> Escapes
    ensures { result ≡ (if is_terminal then Bytes else None) }
{
    if is_terminal {
        Escapes::Bytes
    } else {
        Escapes::None
    }
}

/// A writer that hands its bytes on to a terminal, and writes such characters out.
#[derive(Drop)]
pub struct TerminalWriter<W> {
    out: W,
    escapes: Escapes,
    front: Front,
}

/// The bytes of a character that came, and were not written, since it may be one of those.
#[derive(Clone, Copy)]
enum Front {
    None,
    /// 0xC2, which U+0080 to U+00BF begin with.
    Latin,
    /// 0xE2, which U+2000 to U+2FFF begin with.
    Sign,
    /// 0xE2 0x80, for U+2000 to U+203F.
    LowSign,
    /// 0xE2 0x81, for U+2040 to U+207F.
    HighSign,
}

impl Front {
    fn bytes(self) -> &'static [u8] {
        match self {
            Front::None => &[],
            Front::Latin => &[0xC2],
            Front::Sign => &[0xE2],
            Front::LowSign => &[0xE2, 0x80],
            Front::HighSign => &[0xE2, 0x81],
        }
    }

    /// What these bytes are with one more, if they may still be the beginning of such a character.
    fn with(self, byte: u8) -> Option<Front> {
        match (self, byte) {
            (Front::None, 0xC2) => Some(Front::Latin),
            (Front::None, 0xE2) => Some(Front::Sign),
            (Front::Sign, 0x80) => Some(Front::LowSign),
            (Front::Sign, 0x81) => Some(Front::HighSign),
            _ => None,
        }
    }

    /// The number of such a character that ends with this byte.
    fn ended_by(self, byte: u8) -> Option<u16> {
        match (self, byte) {
            (Front::Latin, 0x80..=0x9F) => Some(u16::from(byte)),
            (Front::LowSign, 0xAA..=0xAE) => Some(0x2000 + u16::from(byte - 0x80)),
            (Front::HighSign, 0xA6..=0xA9) => Some(0x2040 + u16::from(byte - 0x80)),
            _ => None,
        }
    }
}

impl<W: Write> TerminalWriter<W> {
    ghost use Rattle.std.specs.Prelude.{◌≡◌};
    ghost use Rattle.tor_cli.specs.Terminal.{written_by, written_of};

    pub fn new(out: W, escapes: Escapes) -> TerminalWriter<W>
        ensures { written_of W.contents result ≡ written_by W.contents out escapes }
    {
        TerminalWriter {
            out,
            escapes,
            front: Front::None,
        }
    }

    /// Takes one byte, of a character that may be one of those.
    fn take(&mut self, byte: u8) -> Result<()> {
        if let Some(front) = self.front.with(byte) {
            self.front = front;
            return Ok(());
        }
        match self.front.ended_by(byte) {
            Some(number) => self.write_escape(number, byte),
            None => self.write_character(byte),
        }
    }

    /// Writes the bytes that came before, and then this one.
    fn write_character(&mut self, byte: u8) -> Result<()> {
        self.write_front()?;
        match self.front.with(byte) {
            Some(front) => {
                self.front = front;
                Ok(())
            }
            None => self.out.write_all(&[byte]),
        }
    }

    fn write_front(&mut self) -> Result<()> {
        let bytes = self.front.bytes();
        self.front = Front::None;
        self.out.write_all(bytes)
    }

    /// Writes a character out that ends with this byte.
    fn write_escape(&mut self, number: u16, last: u8) -> Result<()> {
        let bytes = self.front.bytes();
        self.front = Front::None;
        if let Escapes::Json = self.escapes {
            let [high, low] = number.to_be_bytes();
            return self.out.write_all(&[
                b'\\',
                b'u',
                hex_digit(high / 16),
                hex_digit(high % 16),
                hex_digit(low / 16),
                hex_digit(low % 16),
            ]);
        }
        for byte in bytes {
            self.write_byte(*byte)?;
        }
        self.write_byte(last)
    }

    fn write_byte(&mut self, byte: u8) -> Result<()> {
        let escape = [b'\\', b'x', hex_digit(byte / 16), hex_digit(byte % 16)];
        self.out.write_all(&escape)
    }
}

impl<W: Write> Write for TerminalWriter<W> {
    ghost use Rattle.tor_cli.specs.Terminal.{written_of};

    ghost contents = { written_of W.contents };

    fn write(&mut self, buf: &[u8]) -> Result<usize> {
        if let Escapes::None = self.escapes {
            return self.out.write(buf);
        }
        let Some(first) = buf.first() else {
            return Ok(0);
        };
        if let Front::None = self.front {
            let (plain, _) = buf.split_at(plain_length(buf));
            if !plain.is_empty() {
                return self.out.write(plain);
            }
        }
        self.take(*first)?;
        Ok(1)
    }

    fn flush(&mut self) -> Result<()> {
        if let Escapes::None = self.escapes {
            return self.out.flush();
        }
        self.write_front()?;
        self.out.flush()
    }
}

/// How many bytes there are before the first that such a character may begin with.
fn plain_length(bytes: &[u8]) -> usize
    ensures { result ≤ length bytes.now }
{
    match bytes.iter().position(|byte| matches!(*byte, 0xC2 | 0xE2)) {
        Some(length) => length,
        None => bytes.len(),
    }
}

fn hex_digit(value: u8) -> u8
    requires { value < 16 }
{
    if value < 10 {
        b'0' + value
    } else {
        b'a' + (value - 10)
    }
}
