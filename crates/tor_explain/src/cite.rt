//! Names, paths and bytes of a torrent's, as they stand in a text.
ghost use Rattle.std.specs.Prelude.{◌<◌};

use crate::line::{Line, MAX_CITED, is_control};
use std::str;
use tor_tree::FilePath;

impl Line {
    ghost use Rattle.std.specs.Prelude.{◌≤◌, length};

    /// Adds bytes of a torrent's: control bytes and backslashes are written out, each as a backslash, `x` and two
    /// hexadecimal digits; if they are no UTF-8, so is each byte that is not of ASCII. Two dots stand for what is left
    /// out of long ones.
    pub fn cite(&mut self, bytes: &[u8])
        ensures { length self.old ≤ length self.new }
    {
        match str::from_utf8(bytes) {
            Ok(text) => self.cite_text(text),
            Err(_) => self.cite_bytes(bytes),
        }
    }

    fn cite_text(&mut self, text: &str)
        ensures { length self.old ≤ length self.new }
    {
        let start = self.len();
        'characters: for c in text.chars() {
            if self.has_cited_enough(start) {
                self.say("..");
                return;
            }
            self.escape(c);
        }
    }

    /// Adds bytes each by itself.
    pub fn cite_bytes(&mut self, bytes: &[u8])
        ensures { length self.old ≤ length self.new }
    {
        let start = self.len();
        'bytes: for byte in bytes {
            if self.has_cited_enough(start) {
                self.say("..");
                return;
            }
            self.escape_byte(*byte);
        }
    }

    /// Adds names with slashes between.
    pub fn cite_names(&mut self, names: &[&[u8]])
        ensures { length self.old ≤ length self.new }
    {
        let start = self.len();
        'names: for name in names {
            if self.has_cited_enough(start) {
                self.say("/..");
                return;
            }
            if self.len() != start {
                self.add('/');
            }
            self.cite(name);
        }
    }

    /// Adds a path, with slashes between its names.
    pub fn cite_path(&mut self, path: &FilePath)
        ensures { length self.old ≤ length self.new }
    {
        let start = self.len();
        'names: for name in path.names() {
            if self.has_cited_enough(start) {
                self.say("/..");
                return;
            }
            if self.len() != start {
                self.add('/');
            }
            self.cite(name.as_bytes());
        }
    }

    fn has_cited_enough(&self, start: usize) -> bool {
        self.len().saturating_sub(start) > MAX_CITED
    }

    fn escape(&mut self, c: char)
        ensures { length self.old ≤ length self.new }
    {
        if is_control(c) || c == '\\' {
            self.write_out(c as u32)
        } else {
            self.add(c)
        }
    }

    fn escape_byte(&mut self, byte: u8)
        ensures { length self.old ≤ length self.new }
    {
        if byte < 128 {
            self.escape(byte as char)
        } else {
            self.write_out(u32::from(byte))
        }
    }

    // Two digits of the number.
    fn write_out(&mut self, number: u32)
        ensures { length self.old ≤ length self.new }
    {
        self.say("\\x");
        self.add(hex_digit(number / 16 % 16));
        self.add(hex_digit(number % 16))
    }
}

fn hex_digit(value: u32) -> char
    requires { value < 16 }
{
    char::from_digit(value, 16).unwrap_or('0')
}
