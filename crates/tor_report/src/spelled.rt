//! The user's text, spelled as it has to be where it is written.
ghost use Rattle.std.specs.Prelude.{◌≡◌, ◌≤◌, ◌<◌, ◌∷◌, [], IfErr, IfOk, OnOk, length, take, true};
ghost use Rattle.tor_report.specs.Put.{Puts, Stops};
ghost use Rattle.json.specs.Print.{escape as in_json, escape_byte, escape_letter};
ghost use Rattle.tor_report.specs.Escape.{code_of, escape, escape_byte as ascii_byte, is_escaped};
ghost use Rattle.tor_report.specs.Spelled.{spelled, spelled_byte};

use crate::buffer::Buffer;
use crate::digits::digit;
use crate::sink::Sink;
use crate::spelling::Spelling;
use tor_spec::WriteFault;

impl Buffer {
    /// Puts a text, spelled so.
    pub fn put_spelled<S: Sink>(
        &mut self,
        out: &mut S,
        text: &[u8],
        spelling: Spelling,
    ) -> Result<(), WriteFault>
        ensures put { OnOk result
            (Puts S.took (spelled spelling text.now) out.old self.old out.new self.new) }
        ensures stopped { IfErr result (λ fault.
            Stops S.took S.fails (spelled spelling text.now) out.old self.old out.new fault.written) }
    {
        let mut done = 0;
        'runs: while done < text.len() {
            let (_, rest) = text.split_at(done);
            done += self.put_run(out, rest, spelling)?;
        }
        Ok(())
    }

    /// Puts the bytes in front that stand for themselves; if there are none, what stands for the first byte. Answers of
    /// how many bytes that is.
    fn put_run<S: Sink>(
        &mut self,
        out: &mut S,
        text: &[u8],
        spelling: Spelling,
    ) -> Result<usize, WriteFault>
        requires { 0 < length text.now }
        ensures some { IfOk result (λ count. 0 < count) }
        ensures within { IfOk result (λ count. count ≤ length text.now) }
        ensures put { IfOk result (λ count. Puts S.took (spelled spelling (take count text.now))
            out.old self.old out.new self.new) }
        ensures stopped { IfErr result (λ fault.
            Stops S.took S.fails (spelled spelling text.now) out.old self.old out.new fault.written) }
    {
        let count = plain_length(text, spelling);
        if count == 0 {
            self.put_spelled_byte(out, text[0], spelling)?;
            return Ok(1);
        }
        let (plain, _) = text.split_at(count);
        self.put(out, plain)?;
        Ok(count)
    }

    /// Puts what stands for a byte.
    fn put_spelled_byte<S: Sink>(
        &mut self,
        out: &mut S,
        byte: u8,
        spelling: Spelling,
    ) -> Result<(), WriteFault>
        ensures put { OnOk result
            (Puts S.took (spelled_byte spelling byte) out.old self.old out.new self.new) }
        ensures stopped { IfErr result (λ fault.
            Stops S.took S.fails (spelled_byte spelling byte) out.old self.old out.new fault.written) }
    {
        match spelling {
            Spelling::AsIs => self.put(out, &[byte]),
            Spelling::InLine => self.put_line_code(out, byte),
            Spelling::InAscii => self.put_ascii_code(out, byte),
            Spelling::InJson => self.put_json_code(out, byte),
            Spelling::AsciiInJson => self.put_ascii_json_code(out, byte),
        }
    }

    fn put_line_code<S: Sink>(&mut self, out: &mut S, byte: u8) -> Result<(), WriteFault>
        ensures put { OnOk result
            (Puts S.took (escape byte) out.old self.old out.new self.new) }
        ensures stopped { IfErr result (λ fault.
            Stops S.took S.fails (escape byte) out.old self.old out.new fault.written) }
    {
        if is_escaped(byte) {
            self.put_code(out, byte)
        } else {
            self.put(out, &[byte])
        }
    }

    fn put_ascii_code<S: Sink>(&mut self, out: &mut S, byte: u8) -> Result<(), WriteFault>
        ensures put { OnOk result
            (Puts S.took (ascii_byte byte) out.old self.old out.new self.new) }
        ensures stopped { IfErr result (λ fault.
            Stops S.took S.fails (ascii_byte byte) out.old self.old out.new fault.written) }
    {
        if byte < 128 {
            self.put_line_code(out, byte)
        } else {
            self.put_code(out, byte)
        }
    }

    /// Puts a byte by its two hexadecimal digits.
    fn put_code<S: Sink>(&mut self, out: &mut S, byte: u8) -> Result<(), WriteFault>
        ensures put { OnOk result
            (Puts S.took (code_of byte) out.old self.old out.new self.new) }
        ensures stopped { IfErr result (λ fault.
            Stops S.took S.fails (code_of byte) out.old self.old out.new fault.written) }
    {
        self.put(out, &[b'\\', b'x', digit(byte / 16), digit(byte % 16)])
    }

    #[tactic(auto, unfolding(json::specs::Print::escape_byte))]
    fn put_json_code<S: Sink>(&mut self, out: &mut S, byte: u8) -> Result<(), WriteFault>
        ensures put { OnOk result
            (Puts S.took (escape_byte byte) out.old self.old out.new self.new) }
        ensures stopped { IfErr result (λ fault.
            Stops S.took S.fails (escape_byte byte) out.old self.old out.new fault.written) }
    {
        let letter = escape_letter(byte);
        if letter > 0 {
            self.put(out, &[b'\\', letter])
        } else if byte < 32 {
            self.put(
                out,
                &[b'\\', b'u', b'0', b'0', digit(byte / 16), digit(byte % 16)],
            )
        } else {
            self.put(out, &[byte])
        }
    }

    /// Puts what stands for a byte in a line of ASCII, as it stands in a string of JSON.
    fn put_ascii_json_code<S: Sink>(&mut self, out: &mut S, byte: u8) -> Result<(), WriteFault>
        ensures put { OnOk result
            (Puts S.took (in_json (ascii_byte byte)) out.old self.old out.new self.new) }
        ensures stopped { IfErr result (λ fault.
            Stops S.took S.fails (in_json (ascii_byte byte)) out.old self.old out.new fault.written) }
    {
        if byte < 128 {
            self.put_line_json_code(out, byte)
        } else {
            self.put_code_in_json(out, byte)
        }
    }

    fn put_line_json_code<S: Sink>(&mut self, out: &mut S, byte: u8) -> Result<(), WriteFault>
        ensures put { OnOk result
            (Puts S.took (in_json (escape byte)) out.old self.old out.new self.new) }
        ensures stopped { IfErr result (λ fault.
            Stops S.took S.fails (in_json (escape byte)) out.old self.old out.new fault.written) }
    {
        if is_escaped(byte) {
            self.put_code_in_json(out, byte)
        } else {
            self.put_json_code(out, byte)
        }
    }

    /// Puts a byte by its two hexadecimal digits, as they stand in a string of JSON.
    fn put_code_in_json<S: Sink>(&mut self, out: &mut S, byte: u8) -> Result<(), WriteFault>
        ensures put { OnOk result
            (Puts S.took (in_json (code_of byte)) out.old self.old out.new self.new) }
        ensures stopped { IfErr result (λ fault.
            Stops S.took S.fails (in_json (code_of byte)) out.old self.old out.new fault.written) }
    {
        self.put(
            out,
            &[b'\\', b'\\', b'x', digit(byte / 16), digit(byte % 16)],
        )
    }
}

/// How many bytes in front stand for themselves.
fn plain_length(text: &[u8], spelling: Spelling) -> usize
    ensures within { result ≤ length text.now }
    ensures plain { spelled spelling (take result text.now) ≡ take result text.now }
{
    'bytes: for index in 0..text.len() {
        if !is_plain(text[index], spelling) {
            return index;
        }
    }
    text.len()
}

/// Whether the byte stands for itself.
#[tactic(auto, unfolding(json::specs::Print::escape_byte))]
fn is_plain(byte: u8, spelling: Spelling) -> bool
    ensures { result ≡ true → spelled_byte spelling byte ≡ byte ∷ [] }
{
    match spelling {
        Spelling::AsIs => true,
        Spelling::InLine => !is_escaped(byte),
        Spelling::InAscii => byte < 128 && !is_escaped(byte),
        Spelling::InJson => !matches!(byte, 0..=31 | b'"' | b'\\'),
        Spelling::AsciiInJson => byte < 127 && !matches!(byte, 0..=31 | b'"' | b'\\'),
    }
}

fn is_escaped(byte: u8) -> bool
    ensures { result ≡ is_escaped byte }
{
    matches!(byte, 0..=31 | 127 | b'\\')
}

/// The letter of the short escape of a byte in JSON; 0 if it has none.
fn escape_letter(byte: u8) -> u8
    ensures { result ≡ escape_letter byte }
{
    match byte {
        b'"' | b'\\' => byte,
        8 => b'b',
        12 => b'f',
        b'\n' => b'n',
        b'\r' => b'r',
        b'\t' => b't',
        _ => 0,
    }
}
