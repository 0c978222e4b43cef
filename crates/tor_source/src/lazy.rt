//! Files of the system that are read once and in order.
ghost use Rattle.std.specs.Prelude.{◌≡◌, ◌≤◌, IfOk, length};
ghost use Rattle.std.specs.Io.{ReadsAtMost};
ghost use Rattle.std.specs.Io.KnownBytes.{ReadConsumes};
ghost use Rattle.std.specs.String.{string_bytes};

use crate::folder::listed_file::{ListedFile, ListedFiles, changed, open_listed};
use crate::folder::places::Places;
use crate::folder::regular;
use crate::folder::unlinked::Met;
use std::alloc::{AllocError, Global};
use std::io::{self, ErrorKind, Read};
use std::marker::Model;
use std::rt::Files;

/// The file at a place, which is opened at its first read. It is given up at its end, from which on it gives no byte,
/// and at a fault, after which each read is one. If it was listed, that it is another file by now is a fault, and that
/// it has more bytes or fewer. Contracts see its place.
#[derive(Drop)]
pub struct LazyFile<R: Files> {
    rt: R,
    place: String,
    /// What a listing told of it, if one did.
    listed: Option<ListedFile>,
    /// How many bytes it gave.
    given: u64,
    state: State<R::File>,
}

#[derive(Drop)]
enum State<F> {
    Unopened,
    Open(F),
    AtEnd,
    Failed,
}

impl<R: Files> Model for LazyFile<R> {
    ghost use Rattle.std.specs.Prelude.{ℕ, List};
    ghost use Rattle.std.specs.String.{string_bytes};

    ghost Value = { List ℕ };

    ghost view = { λ file. string_bytes file.place };
}

impl<R: Files> LazyFile<R> {
    // Opens the file if it was not opened yet.
    fn open(&mut self) -> io::Result<()> {
        if let State::Unopened = self.state {
            self.state = State::Failed;
            self.state = State::Open(open_at(&self.rt, &self.place, &mut self.listed)?);
        }
        Ok(())
    }
}

/// A reader of the file at each of these places, of which this was told by a listing, or if no link is followed by how
/// it was met. Of one that was met, and is no regular file, each read is a fault.
pub(crate) fn readers_of<R: Files + Clone + Drop>(
    rt: &R,
    alloc: Global,
    places: &Places,
    listed: &ListedFiles,
    met: &[Met],
) -> Result<Vec<LazyFile<R>>, AllocError>
    ensures { IfOk result (λ readers. readers.items ≡ places.now) }
{
    let mut readers = Vec::with_capacity(alloc, places.count())?;
    'files: for file in 0..places.count() {
        let place = places.text(alloc, file)?;
        readers.push(reader_at(rt, place, met.get(file), listed.get(file))?)?;
    }
    Ok(readers)
}

// A reader of the file at this place, which was met so, or of which this was told.
fn reader_at<R: Files + Clone + Drop>(
    rt: &R,
    place: String,
    met: Option<&Met>,
    listed: Option<ListedFile>,
) -> Result<LazyFile<R>, AllocError>
    ensures { IfOk result (λ reader. reader ≡ string_bytes place) }
{
    Ok(LazyFile {
        rt: rt.clone()?,
        place,
        listed: listing_of(met, listed),
        given: 0,
        state: first_state(met),
    })
}

// What is known of the file at a place before it is opened, by how it was met or by a listing.
fn listing_of(met: Option<&Met>, listed: Option<ListedFile>) -> Option<ListedFile> {
    match met {
        Some(Met::Regular(found)) => Some(*found),
        Some(_) => None,
        None => listed,
    }
}

// Not opened yet; or failed, if what was met is no regular file.
fn first_state<F>(met: Option<&Met>) -> State<F> {
    match met {
        Some(Met::Regular(_)) | None => State::Unopened,
        Some(_) => State::Failed,
    }
}

// The file at a place, opened. One that was listed has to be as it was; of one that was not, and that tells of no byte,
// that is kept, so that a byte of it is a fault.
fn open_at<R: Files>(rt: &R, place: &str, listed: &mut Option<ListedFile>) -> io::Result<R::File> {
    if let Some(listed) = listed {
        return match open_listed(rt, place, listed)? {
            Some(file) => Ok(file),
            None => Err(changed()),
        };
    }
    let (file, metadata) = regular::open_at(rt, place)?;
    if metadata.len() == 0 {
        *listed = Some(ListedFile::of(&metadata));
    }
    Ok(file)
}

// One read of an open file, of which so many bytes were given before. As many as were listed have to come, if it was.
fn read_on<F: Read>(
    file: &mut F,
    listed: &Option<ListedFile>,
    given: &mut u64,
    buf: &mut [u8],
) -> io::Result<usize>
    ensures { IfOk result (λ count. count ≤ length buf.old) }
{
    let count = file.read(buf)?;
    let is_end = count == 0 && !buf.is_empty();
    *given = given.saturating_add(count as u64);
    match listed {
        Some(listed) if listed.length < *given || is_end && *given < listed.length => Err(
            changed(),
        ),
        _ => Ok(count),
    }
}

impl<R: Files> Read for LazyFile<R> {
    fn read(&mut self, buf: &mut [u8]) -> io::Result<usize> {
        self.open()?;
        let result = match &mut self.state {
            State::Open(file) => read_on(file, &self.listed, &mut self.given, buf),
            State::AtEnd => return Ok(0),
            _ => return Err(io::Error::from(ErrorKind::Other)),
        };
        match &result {
            Ok(0) if !buf.is_empty() => self.state = State::AtEnd,
            Ok(_) => {}
            Err(_) => self.state = State::Failed,
        }
        result
    }
}
