//! Regular files of the system: where something else stands, or nothing, there is none.
ghost use Rattle.std.specs.Fs.{file_type, IsFile};
ghost use Rattle.std.specs.IoError.{error_kind};
ghost use Rattle.std.specs.Prelude.{◌≡◌, ◌≤◌, false, IfErr, IfOk, IfSome, length};
ghost use Rattle.tor_source.specs.Faults.{is_absence};

use crate::faults::is_absence_at;
use crate::folder::listed_file::untold;
use std::fs::{self, Metadata};
use std::io;
use std::os::unix::fs::FileExt;
use std::rt::Files;

/// How many bytes the regular file at a place has; None if there is none. That it tells of none, and gives one, is a
/// fault.
pub(crate) fn length_at<R: Files>(rt: &R, place: &str) -> io::Result<Option<u64>>
where
    R::File: FileExt,
    ensures { IfErr result (λ fault. is_absence (error_kind fault) ≡ false) }
{
    match file_at(rt, place)? {
        Some(metadata) if metadata.len() == 0 && gives_byte(rt, place) => Err(untold()),
        Some(metadata) => Ok(Some(metadata.len())),
        None => Ok(None),
    }
}

/// Whether a regular file that tells of no byte gives one, as those of `/proc` do. One that cannot be read has none.
pub(crate) fn gives_byte<R: Files>(rt: &R, place: &str) -> bool
where
    R::File: FileExt,
{
    let mut byte = [0; 1];
    match fs::open(rt, place) {
        Ok(file) => matches!(file.read_at(&mut byte, 0), Ok(1)),
        Err(_) => false,
    }
}

/// One read of the regular file at a place; it gives nothing if there is none, and from its end on, where the system
/// may refuse a read. What is no regular file is not opened: to open a FIFO would wait.
pub(crate) fn read_at<R: Files>(
    rt: &R,
    place: &str,
    start: u64,
    buffer: &mut [u8],
) -> io::Result<usize>
where
    R::File: FileExt,
    ensures { IfOk result (λ count. count ≤ length buffer.old) }
{
    match file_at(rt, place)? {
        Some(metadata) if start < metadata.len() => fs::open(rt, place)?.read_at(buffer, start),
        _ => Ok(0),
    }
}

/// The regular file at a place, opened to be read, and what the system told of it before. What is none is not opened:
/// to open a FIFO would wait.
pub(crate) fn open_at<R: Files>(rt: &R, place: &str) -> io::Result<(R::File, Metadata)> {
    let metadata = rt.metadata(place)?;
    if metadata.is_file() {
        Ok((fs::open(rt, place)?, metadata))
    } else {
        Err(io::Error::from(io::ErrorKind::InvalidInput))
    }
}

// What the system tells of the regular file at a place. A place that leads through a file has nothing.
fn file_at<R: Files>(rt: &R, place: &str) -> io::Result<Option<Metadata>>
    ensures found { IfOk result (λ found. IfSome found (λ metadata. IsFile (file_type metadata))) }
    ensures refused { IfErr result (λ fault. is_absence (error_kind fault) ≡ false) }
{
    match rt.metadata(place) {
        Ok(metadata) if metadata.is_file() => Ok(Some(metadata)),
        Ok(_) => Ok(None),
        Err(fault) if is_absence_at(place, fault.kind()) => Ok(None),
        Err(fault) => Err(fault),
    }
}
