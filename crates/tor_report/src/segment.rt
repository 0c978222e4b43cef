//! The segments of a text.
ghost use Rattle.std.specs.Prelude.{IfErr, OnOk};
ghost use Rattle.tor_report.specs.Put.{Puts, Stops};
ghost use Rattle.tor_report.specs.Segments.{segment_text, segments_text};

use crate::buffer::Buffer;
use crate::sink::Sink;
use crate::spelling::Spelling;
use tor_spec::WriteFault;
use tor_tree::FilePath;

/// A segment of a text.
#[derive(Clone, Copy)]
pub enum Segment<'a> {
    /// A text as it is.
    Text(&'a str),
    /// A number in base ten.
    Number(u64),
    /// Bytes, as a hash, in lower-case hexadecimal digits.
    Digits(&'a [u8]),
    /// Text of the user's, spelled so.
    Spelled(Spelling, &'a [u8]),
    /// The names of a path, a slash between each two, spelled so.
    Path(Spelling, &'a FilePath),
    /// A string of JSON (RFC 8259, section 7).
    JsonString(&'a [u8]),
    /// The names of a path as an array of strings.
    JsonPath(&'a FilePath),
    /// The digits of a hash behind these, as a string; `null` if there is no hash.
    JsonHash(&'a str, Option<&'a [u8]>),
    /// `true` or `false`.
    JsonBool(bool),
}

impl Buffer {
    /// Puts segments, one after another.
    pub fn put_all<S: Sink>(&mut self, out: &mut S, segments: &[Segment]) -> Result<(), WriteFault>
        ensures put { OnOk result
            (Puts S.took (segments_text segments.now) out.old self.old out.new self.new) }
        ensures stopped { IfErr result (λ fault.
            Stops S.took S.fails (segments_text segments.now) out.old self.old out.new fault.written) }
    {
        'segments: for segment in segments {
            self.put_segment(out, *segment)?;
        }
        Ok(())
    }

    fn put_segment<S: Sink>(&mut self, out: &mut S, segment: Segment) -> Result<(), WriteFault>
        ensures put { OnOk result
            (Puts S.took (segment_text segment.entry) out.old self.old out.new self.new) }
        ensures stopped { IfErr result (λ fault.
            Stops S.took S.fails (segment_text segment.entry) out.old self.old out.new fault.written) }
    {
        match segment {
            Segment::Text(text) => self.put(out, text.as_bytes()),
            Segment::Number(number) => self.put_number(out, number),
            Segment::Digits(bytes) => self.put_digits(out, bytes),
            Segment::Spelled(spelling, text) => self.put_spelled(out, text, spelling),
            Segment::Path(spelling, path) => self.put_path(out, path, spelling),
            Segment::JsonString(text) => self.put_json_string(out, text),
            Segment::JsonPath(path) => self.put_json_path(out, path),
            Segment::JsonHash(before, hash) => self.put_json_hash(out, before, hash),
            Segment::JsonBool(truth) => self.put_json_bool(out, truth),
        }
    }
}
