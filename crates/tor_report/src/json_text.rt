//! Strings, arrays and words of JSON (RFC 8259).
ghost use Rattle.std.specs.Prelude.{◌≡◌, ◌++◌, IfErr, OnOk, option_map};
ghost use Rattle.hex.specs.Hex.{encode_lower};
ghost use Rattle.json.specs.Print.{escape, quoted};
ghost use Rattle.serde_json.specs.Data.{boolean};
ghost use Rattle.serde_json.specs.Written.{compact_text};
ghost use Rattle.tor_report.specs.Escape.{printable};
ghost use Rattle.tor_report.specs.Records.{path_data};
ghost use Rattle.tor_report.specs.Put.{Puts, Stops};
ghost use Rattle.tor_report.specs.Records.{hash_data};
ghost use Rattle.tor_report.specs.Spelled.{spelled};

use crate::buffer::Buffer;
use crate::sink::Sink;
use crate::spelling::Spelling;
use std::str;
use tor_spec::WriteFault;
use tor_tree::FilePath;

impl Buffer {
    /// Puts a text as a string.
    pub fn put_json_string<S: Sink>(&mut self, out: &mut S, text: &[u8]) -> Result<(), WriteFault>
        ensures put { OnOk result
            (Puts S.took (quoted text.now) out.old self.old out.new self.new) }
        ensures stopped { IfErr result (λ fault.
            Stops S.took S.fails (quoted text.now) out.old self.old out.new fault.written) }
    {
        self.put(out, b"\"")?;
        self.put_spelled(out, text, Spelling::InJson)?;
        self.put(out, b"\"")
    }

    /// Puts bytes as a string: text as it is, and bytes that are no text as they stand in a line of ASCII.
    pub fn put_json_bytes<S: Sink>(&mut self, out: &mut S, bytes: &[u8]) -> Result<(), WriteFault>
        ensures put { OnOk result
            (Puts S.took (quoted (printable bytes.now)) out.old self.old out.new self.new) }
        ensures stopped { IfErr result (λ fault.
            Stops S.took S.fails (quoted (printable bytes.now)) out.old self.old out.new fault.written) }
    {
        let spelling = spelling_in_json(bytes);
        self.put(out, b"\"")?;
        self.put_spelled(out, bytes, spelling)?;
        self.put(out, b"\"")
    }

    /// Puts `true` or `false`.
    pub fn put_json_bool<S: Sink>(&mut self, out: &mut S, truth: bool) -> Result<(), WriteFault>
        ensures put { OnOk result
            (Puts S.took (compact_text (boolean truth)) out.old self.old out.new self.new) }
        ensures stopped { IfErr result (λ fault.
            Stops S.took S.fails (compact_text (boolean truth)) out.old self.old out.new fault.written) }
    {
        if truth {
            self.put(out, b"true")
        } else {
            self.put(out, b"false")
        }
    }

    /// Puts the names of a path as an array of strings.
    pub fn put_json_path<S: Sink>(&mut self, out: &mut S, path: &FilePath) -> Result<(), WriteFault>
        ensures put { OnOk result (Puts S.took (compact_text (path_data path.now))
            out.old self.old out.new self.new) }
        ensures stopped { IfErr result (λ fault. Stops S.took S.fails (compact_text (path_data path.now))
            out.old self.old out.new fault.written) }
    {
        let names = path.names();
        self.put(out, b"[\"")?;
        self.put_joined(out, names, b"\",\"", Spelling::InJson)?;
        self.put(out, b"\"]")
    }

    /// Puts the digits of a hash behind these as a string; `null` if there is no hash.
    pub fn put_json_hash<S: Sink>(
        &mut self,
        out: &mut S,
        before: &str,
        hash: Option<&[u8]>,
    ) -> Result<(), WriteFault>
        ensures put { OnOk result (Puts S.took
            (compact_text (hash_data before.now (option_map (λ bytes. bytes.now) hash.entry)))
            out.old self.old out.new self.new) }
        ensures stopped { IfErr result (λ fault. Stops S.took S.fails
            (compact_text (hash_data before.now (option_map (λ bytes. bytes.now) hash.entry)))
            out.old self.old out.new fault.written) }
    {
        match hash {
            Some(hash) => self.put_behind(out, before, hash),
            None => self.put(out, b"null"),
        }
    }

    /// Puts the digits of a hash behind these as a string.
    fn put_behind<S: Sink>(
        &mut self,
        out: &mut S,
        before: &str,
        hash: &[u8],
    ) -> Result<(), WriteFault>
        ensures put { OnOk result (Puts S.took (quoted (before.now ++ encode_lower hash.now))
            out.old self.old out.new self.new) }
        ensures stopped { IfErr result (λ fault. Stops S.took S.fails (quoted (before.now ++ encode_lower hash.now))
            out.old self.old out.new fault.written) }
    {
        self.put(out, b"\"")?;
        self.put_behind_these(out, before, hash)?;
        self.put(out, b"\"")
    }

    /// Puts the digits of a hash behind these, which are as they would be in a string.
    fn put_behind_these<S: Sink>(
        &mut self,
        out: &mut S,
        before: &str,
        hash: &[u8],
    ) -> Result<(), WriteFault>
        ensures put { OnOk result (Puts S.took (escape (before.now ++ encode_lower hash.now))
            out.old self.old out.new self.new) }
        ensures stopped { IfErr result (λ fault. Stops S.took S.fails (escape (before.now ++ encode_lower hash.now))
            out.old self.old out.new fault.written) }
    {
        self.put_spelled(out, before.as_bytes(), Spelling::InJson)?;
        self.put_digits(out, hash)
    }
}

/// How bytes are spelled in a string: text as it is, and bytes that are no text as in a line of ASCII.
fn spelling_in_json(bytes: &[u8]) -> Spelling
    ensures { spelled result bytes.now ≡ escape (printable bytes.now) }
{
    match str::from_utf8(bytes) {
        Ok(_) => Spelling::InJson,
        Err(_) => Spelling::AsciiInJson,
    }
}
