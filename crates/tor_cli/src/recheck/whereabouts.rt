//! Where the files of a torrent are looked for, by what the system tells of a place.
ghost use Rattle.std.specs.Fs.{IsFile, file_type};
ghost use Rattle.std.specs.IoError.{error_kind};
ghost use Rattle.std.specs.Prelude.{◌≡◌, IfErr, IfOk};
ghost use Rattle.tor_cli.specs.recheck.Whereabouts.{is_memory, looked_for, standing_of_kind};
ghost use Rattle.tor_cli.specs.declared.recheck.whereabouts.Standing.TheVariants.{File, NoFile};

use std::fs::Metadata;
use std::io::{self, ErrorKind};
use tor_source::{ScanFault, is_absence};

/// What the system tells of a place.
#[derive(Clone, Copy)]
pub enum Standing {
    /// A file is there.
    File,
    /// A folder is there, or what is neither a file nor a folder.
    NoFile,
    /// Nothing is there, or the place leads through a file.
    Nothing,
    /// It is not told what is there.
    NotTold,
    /// Nor is it, since memory was refused.
    NoMemory,
}

/// Where files are looked for.
#[derive(Drop)]
pub enum Whereabouts {
    /// One file, at the place itself.
    Itself,
    /// Each below the place, whether it is there or not.
    Below,
    /// Nowhere: this is told of the place.
    Nowhere(ScanFault),
}

/// Where so many files of a torrent are looked for. The file at a place is what a torrent of one file has there, and no
/// place for those of another. If it is not told what is there, each file is asked for below it, and its fault is told.
pub fn whereabouts_of(standing: Standing, files: usize) -> Whereabouts
    ensures { result ≡ looked_for standing files }
{
    match standing {
        Standing::File => at_itself(files),
        Standing::NoFile => Whereabouts::Below,
        Standing::Nothing | Standing::NotTold => Whereabouts::Below,
        Standing::NoMemory => Whereabouts::Nowhere(ScanFault::Memory),
    }
}

fn at_itself(files: usize) -> Whereabouts
    ensures { result ≡ looked_for File files }
{
    if files == 1 {
        Whereabouts::Itself
    } else {
        Whereabouts::Nowhere(ScanFault::System)
    }
}

/// What the answer of the system tells.
pub fn standing_of_answer(answer: &io::Result<Metadata>) -> Standing
    ensures file { IfOk answer.now (λ metadata. IsFile (file_type metadata) → result ≡ File) }
    ensures other { IfOk answer.now (λ metadata. (IsFile (file_type metadata) → ⊥) → result ≡ NoFile) }
    ensures fault { IfErr answer.now (λ error. result ≡ standing_of_kind (error_kind error)) }
{
    match answer {
        Ok(metadata) => standing_of(metadata),
        Err(error) => standing_of_kind(error.kind()),
    }
}

fn standing_of(metadata: &Metadata) -> Standing
    ensures file { IsFile (file_type metadata.now) → result ≡ File }
    ensures other { (IsFile (file_type metadata.now) → ⊥) → result ≡ NoFile }
{
    if metadata.is_file() {
        Standing::File
    } else {
        Standing::NoFile
    }
}

fn standing_of_kind(kind: ErrorKind) -> Standing
    ensures { result ≡ standing_of_kind kind }
{
    if is_absence(kind) {
        return Standing::Nothing;
    }
    if is_memory(kind) {
        return Standing::NoMemory;
    }
    Standing::NotTold
}

fn is_memory(kind: ErrorKind) -> bool
    ensures { result ≡ is_memory kind }
{
    matches!(kind, ErrorKind::OutOfMemory)
}
