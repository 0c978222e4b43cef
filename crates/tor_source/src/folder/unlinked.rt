//! Files that are looked for below a folder while no link is followed: how each of them stands.
ghost use Rattle.std.specs.IoError.{error_kind};
ghost use Rattle.std.specs.Prelude.{◌≡◌, ◌<◌, ◌≤◌, IfErr, IfOk, None, Ok, false, length, map, vec_len};
ghost use Rattle.tor_source.specs.Faults.{is_absence};
ghost use Rattle.tor_source.specs.Places.{place_of};
ghost use Rattle.tor_source.specs.declared.folder.unlinked.Met.TheVariants.{Link, Nothing};
ghost use Rattle.tor_source.specs.steps.Met.{met_of_kind, met_of_refusal};

use crate::faults::{ScanFault, is_absence};
use crate::folder::FolderSource;
use crate::folder::listed_file::{FileNumber, ListedFile, read_listed, untold};
use crate::folder::named::{LeadingFolders, Sought, look_for};
use crate::folder::place::Place;
use crate::folder::places::Places;
use crate::folder::regular::gives_byte;
use crate::refused::{OtherKind, Refusal};
use std::alloc::{AllocError, Global};
use std::fs::Metadata;
use std::io::{self, ErrorKind};
use std::os::fd::AsRawFd;
use std::os::unix::fs::FileExt;
use std::rt::Files;
use tor_tree::FilePath;

impl<R: Files + Clone + Drop> FolderSource<R> {
    /// These files below the folder `place`, as `at` has them, but no link below it is followed: a file is not there if
    /// a link stands at its place, or on the way to it, and is never opened. Each is looked for once, now, and read as
    /// it was met. If `place` is no folder, no file is there. If the system did not tell of a file, its `length` is a
    /// fault. A link at `place` itself is followed.
    pub fn at_without_links(
        rt: &R,
        alloc: Global,
        place: &str,
        files: Vec<FilePath>,
    ) -> Result<FolderSource<R>, AllocError>
    where
        R::File: AsRawFd,
        ensures { IfOk result (λ source. source ≡ map (place_of place.now) files.items) }
    {
        FolderSource::wanted_without_links(rt, alloc, place, files, &[])
    }

    /// As `at_without_links`, but a file is looked for only if it is wanted, or nothing tells whether it is. One that
    /// is not is not there.
    pub fn wanted_without_links(
        rt: &R,
        alloc: Global,
        place: &str,
        files: Vec<FilePath>,
        wanted: &[bool],
    ) -> Result<FolderSource<R>, AllocError>
    where
        R::File: AsRawFd,
        ensures { IfOk result (λ source. source ≡ map (place_of place.now) files.items) }
    {
        let met = met_below(rt, alloc, place, &files, wanted)?;
        let places = Places::below(alloc, place, files)?;
        let mut source = FolderSource::of_places(rt, alloc, places)?;
        source.met = met;
        Ok(source)
    }

    /// Whether a file is not there because of a link that was not followed: at its place, or on the way to it. A source
    /// that follows links has no such file.
    pub fn is_behind_link(&self, file: usize) -> bool
        ensures { length self.now ≤ file → result ≡ false }
    {
        file < self.places.count() && matches!(self.met.get(file), Some(Met::Link))
    }
}

/// How a file stands that was looked for.
#[derive(Clone, Copy)]
pub(crate) enum Met {
    /// It is a regular file, of which this was told.
    Regular(ListedFile),
    /// Nothing is there, or what is no regular file.
    Nothing,
    /// A link stands at its place, or where a folder leads to it.
    Link,
    /// The system did not tell, with a fault of this kind.
    Untold(ErrorKind),
}

impl Met {
    /// How many bytes the file has that was met so; None if it is not there. One that was empty is asked for again, and
    /// has to be the same.
    pub(crate) fn length_at<R: Files>(
        &self,
        rt: &R,
        places: &Places,
        file: usize,
    ) -> io::Result<Option<u64>>
    where
        R::File: FileExt,
        requires { file < length places.now }
        ensures refused { IfErr result (λ fault. is_absence (error_kind fault) ≡ false) }
        ensures linked { self.now ≡ Link → result ≡ Ok None }
        ensures absent { self.now ≡ Nothing → result ≡ Ok None }
    {
        match self {
            Met::Regular(listed) if 0 < listed.length => Ok(Some(listed.length)),
            Met::Regular(listed) => {
                let mut place = Place::new();
                places.write(file, &mut place)?;
                still_empty(rt, place.as_str(), listed)
            }
            Met::Untold(kind) if !is_absence(*kind) => Err(io::Error::from(*kind)),
            _ => Ok(None),
        }
    }

    /// One read of the file that was met so. Nothing else than a regular file is opened.
    pub(crate) fn read_at<R: Files>(
        &self,
        rt: &R,
        places: &Places,
        file: usize,
        start: u64,
        buffer: &mut [u8],
    ) -> io::Result<usize>
    where
        R::File: FileExt,
        requires { file < length places.now }
        ensures within { IfOk result (λ count. count ≤ length buffer.old) }
        ensures linked { self.now ≡ Link → result ≡ Ok 0 }
        ensures absent { self.now ≡ Nothing → result ≡ Ok 0 }
    {
        match self {
            Met::Regular(listed) => {
                let mut place = Place::new();
                places.write(file, &mut place)?;
                read_listed(rt, place.as_str(), listed, start, buffer)
            }
            Met::Untold(kind) => Err(io::Error::from(*kind)),
            _ => Ok(0),
        }
    }
}

// The length of a file that was listed as empty: none if it is not the same any more. A link at its place is not
// followed.
fn still_empty<R: Files>(rt: &R, place: &str, listed: &ListedFile) -> io::Result<Option<u64>>
where
    R::File: FileExt,
    ensures { IfErr result (λ fault. is_absence (error_kind fault) ≡ false) }
{
    match rt.symlink_metadata(place) {
        Ok(metadata) if !listed.is_still(&metadata) => Ok(None),
        Ok(_) if gives_byte(rt, place) => Err(untold()),
        Ok(_) => Ok(Some(0)),
        Err(fault) if is_absence(fault.kind()) => Ok(None),
        Err(fault) => Err(fault),
    }
}

/// Whether one of the files that were met is this very one.
pub(crate) fn is_among(met: &[Met], file: &Metadata) -> bool {
    let number = FileNumber::of(file);
    for one in met {
        if matches!(one, Met::Regular(listed) if listed.number.is(number)) {
            return true;
        }
    }
    false
}

/// How each of these files stands below a folder, in their order, if it is wanted. A link at the folder itself is
/// followed, and none below it: what leads to a file has to be folders. If no folder is there, none of the files is.
pub(crate) fn met_below<R: Files>(
    rt: &R,
    alloc: Global,
    root: &str,
    files: &[FilePath],
    wanted: &[bool],
) -> Result<Vec<Met>, AllocError>
where
    R::File: AsRawFd,
    ensures { IfOk result (λ met. vec_len met ≡ length files.now) }
{
    if let Some(met) = top_met(rt, root)? {
        return Ok(vec![in alloc; met; files.len()]?);
    }
    match LeadingFolders::at_top(rt, alloc, root) {
        Ok(mut leading) => met_on_way(rt, alloc, &mut leading, files, wanted),
        Err(ScanFault::Memory) => Err(AllocError),
        Err(_) => Ok(vec![in alloc; Met::Untold(ErrorKind::Other); files.len()]?),
    }
}

// How all files below a place stand, if no folder is there.
fn top_met<R: Files>(rt: &R, root: &str) -> Result<Option<Met>, AllocError> {
    match rt.metadata(root) {
        Ok(metadata) if metadata.is_dir() => Ok(None),
        Ok(_) => Ok(Some(Met::Nothing)),
        Err(fault) if matches!(fault.kind(), ErrorKind::OutOfMemory) => Err(AllocError),
        Err(fault) => Ok(Some(met_of_kind(fault.kind()))),
    }
}

// How each of these files stands, which are looked for from the top folder on.
fn met_on_way<R: Files>(
    rt: &R,
    alloc: Global,
    leading: &mut LeadingFolders<R>,
    files: &[FilePath],
    wanted: &[bool],
) -> Result<Vec<Met>, AllocError>
where
    R::File: AsRawFd,
    ensures { IfOk result (λ met. vec_len met ≡ length files.now) }
{
    let mut met = Vec::with_capacity(alloc, files.len())?;
    'files: for file in files {
        let is_wanted = *wanted.get(met.len()).unwrap_or(&true);
        met.push(met_if(rt, alloc, leading, file, is_wanted)?)?;
    }
    Ok(met)
}

// How this file stands, if it is wanted.
fn met_if<R: Files>(
    rt: &R,
    alloc: Global,
    leading: &mut LeadingFolders<R>,
    file: &FilePath,
    is_wanted: bool,
) -> Result<Met, AllocError>
where
    R::File: AsRawFd,
    ensures unwanted { is_wanted ≡ false → result ≡ Ok Nothing }
{
    if !is_wanted {
        return Ok(Met::Nothing);
    }
    match look_for(rt, alloc, leading, file.names()) {
        Ok(sought) => Ok(met_of(sought)),
        Err(_) => Err(AllocError),
    }
}

// How a file stands of which this was found.
fn met_of(sought: Sought) -> Met {
    match sought {
        Sought::File(listed) => Met::Regular(listed),
        Sought::NotTaken(refusal) => met_of_refusal(&refusal),
    }
}

// How a file stands that is refused so.
fn met_of_refusal(refusal: &Refusal) -> Met
    ensures { result ≡ met_of_refusal refusal.now }
{
    match refusal {
        Refusal::NotRegular(OtherKind::Link) => Met::Link,
        Refusal::NotRegular(_) | Refusal::Missing => Met::Nothing,
        Refusal::NotUtf8 | Refusal::TooDeep => Met::Untold(ErrorKind::InvalidFilename),
        Refusal::System(fault) => met_of_kind(fault.kind()),
    }
}

// How a file stands for which the system has a fault of this kind.
fn met_of_kind(kind: ErrorKind) -> Met
    ensures { result ≡ met_of_kind kind }
{
    if is_absence(kind) {
        Met::Nothing
    } else {
        Met::Untold(kind)
    }
}
