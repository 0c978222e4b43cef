//! How the user's text is spelled where it is written.

/// How the user's text is spelled where it is written.
#[derive(Clone, Copy, Debug, PartialEq, Eq)]
pub enum Spelling {
    /// As it is.
    AsIs,
    /// In a line: the bytes 0 to 31, 127 and the backslash are written out, each as a backslash, `x` and two
    /// hexadecimal digits.
    InLine,
    /// In a line of ASCII, of bytes that are no text: as in a line, and the bytes from 128 on are written out too.
    InAscii,
    /// In a string of JSON (RFC 8259, section 7): the quotation mark, the backslash and the bytes 0 to 31 are written
    /// out, as short as they can be.
    InJson,
    /// In a string of JSON, of bytes that are no text: as in a line of ASCII, whose backslashes and quotation marks are
    /// written out for the string.
    AsciiInJson,
}
