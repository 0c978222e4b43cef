//! Which files of a torrent a recheck lists, and in which form.
ghost use Rattle.std.specs.Prelude.{◌≡◌};
ghost use Rattle.tor_cli.specs.Words.{form_of, listing_of};

/// What is printed of the torrent's files, beside its pieces.
#[derive(Clone, Copy)]
pub enum FileListing {
    /// Nothing.
    Pieces,
    /// A line for each.
    Files,
    /// A line for each that is not whole.
    BadFiles,
    /// Of each that is not whole its path, and nothing else is printed.
    BadPaths,
}

/// For whom a recheck answers.
#[derive(Clone, Copy)]
pub enum Form {
    /// For people, and for tools that go line by line.
    Text,
    /// The same without the line of bits.
    Brief,
    /// For programs: one object of JSON (RFC 8259).
    Json,
}

/// The form that the flags `--brief` and `--json` ask for; they do not stand beside each other.
pub fn form_of(brief: bool, json: bool) -> Form
    ensures { result ≡ form_of brief json }
{
    match (brief, json) {
        (_, true) => Form::Json,
        (true, false) => Form::Brief,
        (false, false) => Form::Text,
    }
}

/// The listing that these flags ask for: `--files`; `--bad`, which leaves the whole files out; and `--null`, which
/// stands beside `--bad` alone.
pub fn listing_of(files: bool, bad: bool, null: bool) -> FileListing
    ensures { result ≡ listing_of files bad null }
{
    match (files, bad, null) {
        (_, true, true) => FileListing::BadPaths,
        (_, true, false) => FileListing::BadFiles,
        (true, false, _) => FileListing::Files,
        (false, false, _) => FileListing::Pieces,
    }
}
