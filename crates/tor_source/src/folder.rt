//! Where the system has the files below a folder, or a file by itself.
//!
//! - `walk.rt` finds the files below a folder, `named.rt` those of a list, both into `found.rt`; `folder_names.rt` reads
//!   the names in a folder. `open_folders.rt` holds folders open meanwhile, `deep_folders.rt` those deeper than a file
//!   may be. `extra.rt`: what is below a folder and none of given files.
//! - `unlinked.rt`: a source that follows no link, and how its files stand.
//! - `places.rt`: the places of files, each written when it is asked for, into a `Place` (`place.rt`). `regular.rt` reads
//!   what stands at a place, `listed_file.rt` a file that has to be as it was listed, and `same_file.rt` tells whether
//!   two places have one file.
ghost use Rattle.std.specs.Prelude.{◌≡◌, ◌⊎◌, ◌<◌, ◌≤◌, ◌∷◌, [], Err, None, Ok, IfErr, IfOk, false, length, map};
ghost use Rattle.std.specs.Prelude.{IsOk, List, vec_len};
ghost use Rattle.std.specs.List.{All};
ghost use Rattle.std.specs.List.Sorted.{IsStrictlySortedBy};
ghost use Rattle.std.specs.IoError.{error_kind};
ghost use Rattle.tor_source.specs.Answers.{system_answers};
ghost use Rattle.tor_source.specs.Faults.{fault_of_refusal, is_absence};
ghost use Rattle.tor_source.specs.Named.{AreParted, path_of};
ghost use Rattle.tor_source.specs.Places.{place_of};
ghost use Rattle.tor_source.specs.declared.faults.ScanFault.TheVariants.{Memory, System};
ghost use Rattle.tor_source.specs.declared.refused.Refused.{Refused};
ghost use Rattle.tor_tree.specs.declared.paths.TheConstants.{MAX_NAMES};
ghost use Rattle.tor_tree.specs.Path.{path_cmp};

pub(crate) mod deep_folders;
pub(crate) mod extra;
pub(crate) mod folder_names;
pub(crate) mod found;
pub(crate) mod listed_file;
pub(crate) mod named;
pub(crate) mod open_folders;
pub(crate) mod place;
pub(crate) mod places;
pub(crate) mod regular;
pub(crate) mod same_file;
pub(crate) mod unlinked;
pub(crate) mod walk;

use crate::faults::ScanFault;
use crate::folder::found::FoundFiles;
use crate::folder::listed_file::{ListedFiles, read_listed};
use crate::folder::named::find;
use crate::folder::place::Place;
use crate::folder::places::Places;
use crate::folder::unlinked::{Met, is_among};
use crate::folder::walk::walk;
use crate::lazy::{LazyFile, readers_of};
use crate::refused::Refused;
use crate::source::Source;
use std::alloc::{AllocError, Global};
use std::fs::Metadata;
use std::io;
use std::marker::Model;
use std::os::fd::AsRawFd;
use std::os::unix::fs::FileExt;
use std::rt::Files;
use tor_tree::FilePath;

/// The files below a folder, or a file by itself, as the system has them. Contracts see the list of their places.
#[derive(Drop)]
pub struct FolderSource<R: Files> {
    rt: R,
    /// Where the system has each file.
    pub(crate) places: Places,
    /// What a listing told of each.
    listed: ListedFiles,
    /// How each stands, if they were looked for with no link followed; none if they were not.
    pub(crate) met: Vec<Met>,
}

/// What a folder has: the files that can be taken, with their paths, and what is refused.
#[derive(Drop)]
pub struct Survey<R: Files> {
    pub source: FolderSource<R>,
    pub paths: Vec<FilePath>,
    pub refused: Vec<Refused>,
}

impl<R: Files> Model for FolderSource<R> {
    ghost use Rattle.std.specs.Prelude.{◌≡◌, ℕ, List, length, vec_len};

    ghost Value = { List (List ℕ) };

    ghost view = { λ source. source.places };

    ghost invariant = { λ source. vec_len source.listed.lengths ≡ length source.places };
}

impl<R: Files + Clone + Drop> FolderSource<R> {
    /// All files below the folder `place`, in the order of their paths. A folder is listed whole, then its names are
    /// entered in the order of their bytes; the first fault so met is answered. Empty folders give nothing. The empty
    /// place is no folder.
    pub fn scan(
        rt: &R,
        alloc: Global,
        place: &str,
    ) -> Result<(FolderSource<R>, Vec<FilePath>), ScanFault>
    where
        R::File: AsRawFd,
        ensures placed { IfOk result (λ found. found.0 ≡ map (place_of place.now) found.1.items) }
        ensures rising { IfOk result (λ found. IsStrictlySortedBy path_cmp found.1.items) }
        ensures short { IfOk result (λ found. All (λ names. length names ≤ MAX_NAMES) found.1.items) }
        ensures nowhere { place.now ≡ [] → result ≡ Err System }
    {
        let survey = FolderSource::surveyed(rt, alloc, place, true)?;
        whole(survey)
    }

    /// As `scan`, but what would be its fault is passed over: the files that can be taken, and all that is refused in
    /// their folders, in the order in which it is met. Nothing is refused exactly if a scan would have no fault.
    pub fn survey(rt: &R, alloc: Global, place: &str) -> Result<Survey<R>, ScanFault>
    where
        R::File: AsRawFd,
        ensures placed { IfOk result (λ survey. survey.source ≡ map (place_of place.now) survey.paths.items) }
        ensures rising { IfOk result (λ survey. IsStrictlySortedBy path_cmp survey.paths.items) }
        ensures short { IfOk result (λ survey. All (λ names. length names ≤ MAX_NAMES) survey.paths.items) }
        ensures nowhere { place.now ≡ [] → result ≡ Err System }
    {
        FolderSource::surveyed(rt, alloc, place, false)
    }

    // As `survey`; it ends where something is refused, if that is wanted.
    fn surveyed(rt: &R, alloc: Global, place: &str, ends: bool) -> Result<Survey<R>, ScanFault>
    where
        R::File: AsRawFd,
        ensures placed { IfOk result (λ survey. survey.source ≡ map (place_of place.now) survey.paths.items) }
        ensures rising { IfOk result (λ survey. IsStrictlySortedBy path_cmp survey.paths.items) }
        ensures short { IfOk result (λ survey. All (λ names. length names ≤ MAX_NAMES) survey.paths.items) }
        ensures nowhere { place.now ≡ [] → result ≡ Err System }
    {
        if place.is_empty() {
            return Err(ScanFault::System);
        }
        let found = walk(rt, alloc, place, ends)?;
        let survey = FolderSource::survey_of(rt, alloc, place, found)?;
        Ok(survey)
    }

    // What was found below this folder.
    fn survey_of(
        rt: &R,
        alloc: Global,
        folder: &str,
        found: FoundFiles,
    ) -> Result<Survey<R>, AllocError>
        requires { vec_len found.listed.lengths ≡ vec_len found.paths }
        ensures source { IfOk result (λ survey. survey.source ≡ map (place_of folder.now) found.paths.items) }
        ensures paths { IfOk result (λ survey. survey.paths ≡ found.paths) }
        ensures refused { IfOk result (λ survey. survey.refused ≡ found.refused) }
    {
        let places = Places::below(alloc, folder, copies_of(alloc, &found.paths)?)?;
        Ok(Survey {
            source: FolderSource::of_listed(rt, alloc, places, found.listed)?,
            paths: found.paths,
            refused: found.refused,
        })
    }

    /// These files below a folder, as far as they can be taken: each in its turn is taken or refused. What leads to one
    /// has to be folders and no link, and the file a regular one.
    pub fn listed(
        rt: &R,
        alloc: Global,
        folder: &str,
        files: Vec<FilePath>,
    ) -> Result<Survey<R>, ScanFault>
    where
        R::File: AsRawFd,
        ensures placed { IfOk result (λ survey. survey.source ≡ map (place_of folder.now) survey.paths.items) }
        ensures each { IfOk result
            (λ survey. AreParted files.items survey.paths.items (map path_of survey.refused.items)) }
        ensures all { IfOk result (λ survey. survey.refused.items ≡ [] → survey.paths.items ≡ files.items) }
        ensures short { IfOk result (λ survey. All (λ names. length names ≤ MAX_NAMES) survey.paths.items) }
        ensures nowhere { folder.now ≡ [] → result ≡ Err System }
    {
        if folder.is_empty() {
            return Err(ScanFault::System);
        }
        let found = find(rt, alloc, folder, &files)?;
        let survey = FolderSource::survey_of(rt, alloc, folder, found)?;
        Ok(survey)
    }

    /// How many bytes each file has, as the listing told; 0 of a file that was not listed.
    pub fn lengths(&self) -> &[u64]
        ensures { length result.now ≡ length self.now }
    {
        &self.listed.lengths
    }

    /// These files below the folder `place`, whether they are there or not. Below the empty place none is.
    pub fn at(
        rt: &R,
        alloc: Global,
        place: &str,
        files: Vec<FilePath>,
    ) -> Result<FolderSource<R>, AllocError>
        ensures { IfOk result (λ source. source ≡ map (place_of place.now) files.items) }
    {
        FolderSource::of_places(rt, alloc, Places::below(alloc, place, files)?)
    }

    /// The one file `place`.
    pub fn single(rt: &R, alloc: Global, place: &str) -> Result<FolderSource<R>, AllocError>
        ensures { IfOk result (λ source. source ≡ place.now ∷ []) }
    {
        FolderSource::of_places(rt, alloc, Places::one(alloc, place)?)
    }

    /// The files at these places, of which nothing was told.
    pub(crate) fn of_places(
        rt: &R,
        alloc: Global,
        places: Places,
    ) -> Result<FolderSource<R>, AllocError>
        ensures { IfOk result (λ source. source ≡ places) }
    {
        let listed = ListedFiles::untold(alloc, places.count())?;
        FolderSource::of_listed(rt, alloc, places, listed)
    }

    // The files at these places, and what the listing told of them.
    fn of_listed(
        rt: &R,
        alloc: Global,
        places: Places,
        listed: ListedFiles,
    ) -> Result<FolderSource<R>, AllocError>
        requires { vec_len listed.lengths ≡ length places }
        ensures { IfOk result (λ source. source ≡ places) }
    {
        Ok(FolderSource {
            rt: rt.clone()?,
            met: Vec::new(alloc),
            places,
            listed,
        })
    }

    /// A reader of each file, to be read once and in order.
    pub fn readers(&self, alloc: Global) -> Result<Vec<LazyFile<R>>, AllocError>
        ensures each { IfOk result (λ readers. readers.items ≡ self.now) }
        ensures count { IfOk result (λ readers. vec_len readers ≡ length self.now) }
    {
        readers_of(&self.rt, alloc, &self.places, &self.listed, &self.met)
    }

    /// Whether one of the files is the very one of which the system told this, perhaps under another name. A file that
    /// was listed, or met, is the one that was told then. Of others the system is asked: a place with nothing now has
    /// another file, and of any other it must tell.
    pub fn has(&self, file: &Metadata) -> Result<bool, ScanFault>
        ensures { IfErr result (λ fault. (fault ≡ Memory) ⊎ (fault ≡ System)) }
    {
        if !self.met.is_empty() {
            return Ok(is_among(&self.met, file));
        }
        match self.listed.has(file) {
            Some(has) => Ok(has),
            None => same_file::is_at_one_of(&self.rt, &self.places, file),
        }
    }

    /// How many files there are.
    pub fn count(&self) -> usize
        ensures { result ≡ length self.now }
    {
        self.places.count()
    }
}

impl<R: Files> FolderSource<R>
where
    R::File: FileExt,
{
    // How many bytes a file has now, of which the system is asked; None if it is not there.
    fn length_now(&self, file: usize) -> io::Result<Option<u64>>
        requires { file < length self.now }
        ensures { IfErr result (λ fault. is_absence (error_kind fault) ≡ false) }
    {
        let mut place = Place::new();
        self.places.write(file, &mut place)?;
        regular::length_at(&self.rt, place.as_str())
    }
}

/// No contract can say what a file of the system holds, nor that it stays as it is: so this source is steady for no
/// facts, and contracts tell of it that a read gives at most what the buffer has room for, that only a file of the
/// list has faults, that any other is missing, and that no fault of a length says that nothing is there, since such a
/// file is missing.
///
/// Each read opens the file, reads once, and closes it. A file that was listed, and had bytes, has the length that was
/// told; each read of it asks what was opened, and gives nothing if that is another file by now, or has another length.
/// Whether a file that was listed is empty is asked each time, since it is never read.
///
/// Of a file that was not listed each call asks the system anew. What stands at its place and is no regular file is
/// missing, as is a file whose place leads through a regular file; a symbolic link at its place is followed.
///
/// If no link is followed, each file is as it was met: a regular one as if it was listed, but one that was empty is
/// missing if it is not the same any more; each other one is missing, or has the fault that the system had.
impl<R: Files + Sync> Source for FolderSource<R>
where
    R::File: FileExt,
{
    type Fault = io::Error;

    ghost is_steady = { λ _ _. ⊥ };

    ghost answers = { λ source. system_answers (length source) };

    fn length(&self, file: u64) -> io::Result<Option<u64>>
        ensures gave { IfErr result
            (λ fault. (file < length self.now) × (is_absence (error_kind fault) ≡ false)) }
        ensures past { length self.now ≤ file → result ≡ Ok None }
    {
        let file = file as usize;
        if self.places.count() <= file {
            return Ok(None);
        }
        if let Some(met) = self.met.get(file) {
            return met.length_at(&self.rt, &self.places, file);
        }
        match self.listed.lengths.get(file) {
            Some(length) if 0 < *length => Ok(Some(*length)),
            _ => self.length_now(file),
        }
    }

    fn read_at(&self, file: u64, start: u64, buffer: &mut [u8]) -> io::Result<usize>
        ensures within { IfOk result (λ count. count ≤ length buffer.old) }
        ensures gave { IfErr result (λ _. file < length self.now) }
        ensures past { length self.now ≤ file → result ≡ Ok 0 }
    {
        let file = file as usize;
        if self.places.count() <= file {
            return Ok(0);
        }
        if let Some(met) = self.met.get(file) {
            return met.read_at(&self.rt, &self.places, file, start, buffer);
        }
        let mut place = Place::new();
        self.places.write(file, &mut place)?;
        match self.listed.get(file) {
            Some(listed) => read_listed(&self.rt, place.as_str(), &listed, start, buffer),
            None => regular::read_at(&self.rt, place.as_str(), start, buffer),
        }
    }
}

// A copy of each of these paths.
fn copies_of(alloc: Global, paths: &[FilePath]) -> Result<Vec<FilePath>, AllocError>
    ensures { IfOk result (λ copies. copies.items ≡ paths.now) }
{
    let mut copies = Vec::with_capacity(alloc, paths.len())?;
    for path in paths {
        copies.push(path.copy(alloc)?)?;
    }
    Ok(copies)
}

// The files of a survey, if nothing is refused, or the fault of what was refused first.
fn whole<R: Files + Drop>(survey: Survey<R>) -> Result<(FolderSource<R>, Vec<FilePath>), ScanFault>
    ensures source { IfOk result (λ found. found.0 ≡ survey.source) }
    ensures paths { IfOk result (λ found. found.1 ≡ survey.paths) }
    ensures none { survey.refused.items ≡ [] → IsOk result }
    ensures first { (first : Refused) → (others : List Refused) → survey.refused.items ≡ first ∷ others →
        result ≡ Err (fault_of_refusal first.refusal) }
{
    match survey.refused.first() {
        Some(first) => Err(first.refusal.fault()),
        None => Ok((survey.source, survey.paths)),
    }
}
