//! Regular files as a listing told of them. Of a file that is not there any more, or not as it was listed, no byte is
//! given.
ghost use Rattle.std.specs.Fs.{file_type, IsFile, metadata_len};
ghost use Rattle.std.specs.IoError.{error_kind};
ghost use Rattle.std.specs.declared.io.ErrorKind.TheVariants.{InvalidData, Other};
ghost use Rattle.std.specs.Prelude.{◌≡◌, ◌+◌, ◌≤◌, [], IfOk, IsTrue, OnOk, length, vec_len};

use crate::faults::is_absence_at;
use std::alloc::{AllocError, Global};
use std::fs::{self, Metadata, OpenFile};
use std::io;
use std::os::unix::fs::{FileExt, MetadataExt};
use std::rt::Files;

/// Which file of the system it is: its number, and that of its device. A file keeps it as long as it is there, under
/// all its names.
#[derive(Clone, Copy)]
pub struct FileNumber {
    device: u64,
    inode: u64,
}

impl FileNumber {
    /// The number of the file that the system describes so.
    pub fn of(metadata: &Metadata) -> FileNumber {
        FileNumber {
            device: metadata.dev(),
            inode: metadata.ino(),
        }
    }

    /// Whether it is the same file.
    pub fn is(self, other: FileNumber) -> bool {
        self.inode == other.inode && self.device == other.device
    }
}

/// What a listing told of a regular file.
#[derive(Clone, Copy)]
pub(crate) struct ListedFile {
    pub(crate) number: FileNumber,
    pub(crate) length: u64,
}

impl ListedFile {
    /// What is kept of what the system told.
    pub(crate) fn of(metadata: &Metadata) -> ListedFile
        ensures { result.length ≡ metadata_len metadata.now }
    {
        ListedFile {
            number: FileNumber::of(metadata),
            length: metadata.len(),
        }
    }

    /// Whether the system tells the same now: of the same regular file, and the same length.
    pub(crate) fn is_still(&self, metadata: &Metadata) -> bool
        ensures { IsTrue result → IsFile (file_type metadata.now) × (metadata_len metadata.now ≡ self.now.length) }
    {
        metadata.is_file()
            && metadata.len() == self.length
            && self.number.is(FileNumber::of(metadata))
    }
}

/// What a listing told of files, in their order; or of so many files that it told nothing.
#[derive(Drop)]
pub(crate) struct ListedFiles {
    /// How many bytes each has; 0 of one of which nothing was told.
    pub(crate) lengths: Vec<u64>,
    /// Which file each is; none if nothing was told.
    numbers: Vec<FileNumber>,
}

impl ListedFiles {
    /// Of no file.
    pub(crate) fn none(alloc: Global) -> ListedFiles
        ensures { result.lengths.items ≡ [] }
    {
        ListedFiles {
            lengths: Vec::new(alloc),
            numbers: Vec::new(alloc),
        }
    }

    /// Of so many files, of which nothing was told.
    pub(crate) fn untold(alloc: Global, count: usize) -> Result<ListedFiles, AllocError>
        ensures { IfOk result (λ listed. vec_len listed.lengths ≡ count) }
    {
        Ok(ListedFiles {
            lengths: vec![in alloc; 0; count]?,
            numbers: Vec::new(alloc),
        })
    }

    /// Of one file more.
    pub(crate) fn push(&mut self, file: ListedFile) -> Result<(), AllocError>
        ensures { OnOk result (vec_len self.new.lengths ≡ vec_len self.old.lengths + 1) }
    {
        self.lengths.push(file.length)?;
        self.numbers.push(file.number)?;
        Ok(())
    }

    /// What was told of a file.
    pub(crate) fn get(&self, file: usize) -> Option<ListedFile> {
        match (self.numbers.get(file), self.lengths.get(file)) {
            (Some(number), Some(length)) => Some(ListedFile {
                number: *number,
                length: *length,
            }),
            _ => None,
        }
    }

    /// Whether the files were listed, and one is this very one; None if they were not.
    pub(crate) fn has(&self, file: &Metadata) -> Option<bool> {
        if self.numbers.is_empty() {
            return None;
        }
        let number = FileNumber::of(file);
        Some(self.numbers.iter().any(|listed| listed.is(number)))
    }
}

/// That a file tells of no byte, and gives one.
pub(crate) fn untold() -> io::Error
    ensures { error_kind result ≡ Other }
{
    io::Error::other("it tells of no byte, and gives one")
}

/// That a file is not as it was listed.
pub(crate) fn changed() -> io::Error
    ensures { error_kind result ≡ InvalidData }
{
    io::Error::from(io::ErrorKind::InvalidData)
}

/// The file that was listed at a place, opened to be read; None if it is not there, or no longer as it was listed. It
/// is compared with the listing right before it is opened, since opening a FIFO would wait, and again once it is open,
/// so that what replaces it in between gives nothing.
pub(crate) fn open_listed<R: Files>(
    rt: &R,
    place: &str,
    listed: &ListedFile,
) -> io::Result<Option<R::File>> {
    match open_if_still(rt, place, listed) {
        Err(fault) if is_absence_at(place, fault.kind()) => Ok(None),
        opened => opened,
    }
}

// As `open_listed`, but that nothing is there is a fault.
fn open_if_still<R: Files>(
    rt: &R,
    place: &str,
    listed: &ListedFile,
) -> io::Result<Option<R::File>> {
    if !listed.is_still(&rt.metadata(place)?) {
        return Ok(None);
    }
    let file = fs::open(rt, place)?;
    if listed.is_still(&file.metadata()?) {
        Ok(Some(file))
    } else {
        Ok(None)
    }
}

/// One read of the file that was listed at a place; it gives nothing if the file is no more as it was listed, and from
/// its end on, where the system may refuse a read.
pub(crate) fn read_listed<R: Files>(
    rt: &R,
    place: &str,
    listed: &ListedFile,
    start: u64,
    buffer: &mut [u8],
) -> io::Result<usize>
where
    R::File: FileExt,
    ensures { IfOk result (λ count. count ≤ length buffer.old) }
{
    match open_listed(rt, place, listed)? {
        Some(file) if start < listed.length => file.read_at(buffer, start),
        _ => Ok(0),
    }
}
