//! What stood at FILE of `--out` when a command began, by which it is known again when it is written: a link that is
//! laid there meanwhile could lead to any file of the user's.
use std::fs::{File, Metadata, OpenFile, OpenOptions};
use std::io::{self, ErrorKind};
use std::os::unix::fs::MetadataExt;
use std::rt::Files;
use tor_source::FileNumber;

/// What stood at FILE when the command began.
#[derive(Clone, Copy)]
pub enum OutBefore {
    /// Nothing, as far as the system reports.
    Nothing,
    /// A regular file.
    Regular(FileNumber),
    /// A link that led to nothing.
    LooseLink(FileNumber),
    /// What is written into as it is, and is this: what a link led to, or what is no regular file.
    WrittenInto(FileNumber),
}

impl OutBefore {
    /// What stands there now.
    pub fn at(system: &HostRuntime, place: Option<&str>) -> OutBefore {
        match place {
            Some(place) => before_at(system, place),
            None => OutBefore::Nothing,
        }
    }

    /// Whether a new file may take its place; else bytes go into it as they are written.
    pub fn is_replaceable(&self) -> bool {
        matches!(self, OutBefore::Nothing | OutBefore::Regular(_))
    }

    /// FILE, opened to be written, and emptied if it is a regular file. If none is there it is made.
    pub fn open(&self, system: &HostRuntime, place: &str) -> io::Result<File> {
        let file = match self {
            OutBefore::Nothing => open_own(system, place, None)?,
            OutBefore::Regular(number) => open_own(system, place, Some(*number))?,
            OutBefore::LooseLink(link) => open_behind(system, place, *link)?,
            OutBefore::WrittenInto(number) => open_same(system, place, *number)?,
        };
        if file.metadata()?.is_file() {
            file.set_len(0)?;
        }
        Ok(file)
    }
}

fn before_at(system: &HostRuntime, place: &str) -> OutBefore {
    let Ok(own) = system.symlink_metadata(place) else {
        return OutBefore::Nothing;
    };
    let number = FileNumber::of(&own);
    if own.is_file() {
        return OutBefore::Regular(number);
    }
    match system.metadata(place) {
        Ok(led) => OutBefore::WrittenInto(FileNumber::of(&led)),
        Err(_) => OutBefore::LooseLink(number),
    }
}

/// The regular file at the place itself, opened to be written; a new one if nothing is there. If it is another one than
/// before, it may have no other name. The folder is not watched, only its file.
fn open_own(system: &HostRuntime, place: &str, before: Option<FileNumber>) -> io::Result<File> {
    let there = match system.symlink_metadata(place) {
        Ok(there) if there.is_file() => there,
        Err(fault) if fault.kind() == ErrorKind::NotFound => {
            return File::create_new(system, place);
        }
        Err(fault) => return Err(fault),
        Ok(_) => return Err(exchanged()),
    };
    let file = OpenOptions::new().write(true).open(system, place)?;
    let opened = file.metadata()?;
    if is_own(&opened, &there, before) {
        Ok(file)
    } else {
        Err(exchanged())
    }
}

/// Whether what was opened is what stood at the place right before, and stood there before, or has no other name.
fn is_own(opened: &Metadata, there: &Metadata, before: Option<FileNumber>) -> bool {
    let number = FileNumber::of(opened);
    let is_as_before = match before {
        Some(before) => number.is(before),
        None => false,
    };
    number.is(FileNumber::of(there)) && (is_as_before || opened.nlink() == 1)
}

/// What is at the place, opened to be written, if it has this number still. It is asked right before it is opened,
/// since opening a FIFO would wait, and again once it is open.
fn open_same(system: &HostRuntime, place: &str, number: FileNumber) -> io::Result<File> {
    if !number.is(FileNumber::of(&system.metadata(place)?)) {
        return Err(exchanged());
    }
    let file = OpenOptions::new().write(true).open(system, place)?;
    if number.is(FileNumber::of(&file.metadata()?)) {
        Ok(file)
    } else {
        Err(exchanged())
    }
}

/// What the link of this number leads to, made if nothing is there. It has to be empty: so nothing is lost if another
/// link is there.
fn open_behind(system: &HostRuntime, place: &str, link: FileNumber) -> io::Result<File> {
    if !link.is(FileNumber::of(&system.symlink_metadata(place)?)) {
        return Err(exchanged());
    }
    let file = OpenOptions::new()
        .write(true)
        .create(true)
        .open(system, place)?;
    if file.metadata()?.len() == 0 {
        Ok(file)
    } else {
        Err(exchanged())
    }
}

/// That something else than before is there.
pub(crate) fn exchanged() -> io::Error {
    io::Error::other("something else than before is there")
}
