//! Where the system has files: a folder's place, and each name after a slash.
ghost use Rattle.std.specs.Prelude.{◌≡◌, ◌<◌, ◌+◌, ◌++◌, ◌∷◌, [], IfErr, IfOk, OnOk, length, map, slice_index_or};
ghost use Rattle.std.specs.IoError.{error_kind};
ghost use Rattle.std.specs.String.{string_bytes};
ghost use Rattle.std.specs.declared.io.ErrorKind.TheVariants.{InvalidFilename};
ghost use Rattle.tor_source.specs.Places.{place_below, place_of, without_slash};
ghost use Rattle.tor_source.specs.declared.faults.TheConstants.{MAX_PLACE};

use crate::folder::place::Place;
use std::alloc::{AllocError, Global};
use std::io;
use std::marker::Model;
use tor_tree::{FilePath, Name};

/// Where the system has files. Many files may share long names, so names are held, and a place is made each time it is
/// asked for. Contracts see the list of the places.
#[derive(Drop)]
pub(crate) struct Places {
    /// A folder's place, with no slash at its end; or that of all files.
    folder: String,
    files: Files,
}

/// Which files have their places there.
#[derive(Drop)]
pub(crate) enum Files {
    /// Each where its path leads to from the folder.
    Below(Vec<FilePath>),
    /// So many, all at this one place.
    Here(usize),
}

impl Model for Places {
    ghost use Rattle.std.specs.Prelude.{ℕ, List};
    ghost use Rattle.std.specs.String.{string_bytes};
    ghost use Rattle.tor_source.specs.steps.Placed.{placed};

    ghost Value = { List (List ℕ) };

    ghost view = { λ places. placed (string_bytes places.folder) places.files };
}

impl Places {
    /// The places of the files that paths lead to from a folder. The empty place is no folder: below it each file is at
    /// the empty place, where the system has nothing.
    pub(crate) fn below(
        alloc: Global,
        folder: &str,
        files: Vec<FilePath>,
    ) -> Result<Places, AllocError>
        ensures { IfOk result (λ places. places ≡ map (place_of folder.now) files.items) }
    {
        if folder.is_empty() {
            let files = Files::Here(files.len());
            let folder = String::new(alloc);
            return Ok(Places { folder, files });
        }
        Ok(Places {
            folder: String::from_str(alloc, without_slash(folder))?,
            files: Files::Below(files),
        })
    }

    /// The place of one file.
    pub(crate) fn one(alloc: Global, place: &str) -> Result<Places, AllocError>
        ensures { IfOk result (λ places. places ≡ place.now ∷ []) }
    {
        Ok(Places {
            folder: String::from_str(alloc, place)?,
            files: Files::Here(1),
        })
    }

    /// How many files there are.
    pub(crate) fn count(&self) -> usize
        ensures { result ≡ length self.now }
    {
        match &self.files {
            Files::Below(files) => files.len(),
            Files::Here(count) => *count,
        }
    }

    /// Writes the place of a file, in place of what was there. For one that is longer than the system takes, the fault
    /// that the system would have is answered.
    pub(crate) fn write(&self, file: usize, place: &mut Place) -> io::Result<()>
        requires { file < length self.now }
        ensures written { OnOk result (place.new ≡ slice_index_or self.now file []) }
        ensures refused { IfErr result (λ fault. (error_kind fault ≡ InvalidFilename)
            × (MAX_PLACE < length (slice_index_or self.now file []))) }
    {
        let (folder, names) = self.parts(file);
        place.write(folder, names)
    }

    /// The place of a file, however long it is.
    pub(crate) fn text(&self, alloc: Global, file: usize) -> Result<String, AllocError>
        requires { file < length self.now }
        ensures { IfOk result (λ text. string_bytes text ≡ slice_index_or self.now file []) }
    {
        let (folder, names) = self.parts(file);
        place_below(alloc, folder, names)
    }

    // What the place of a file is put together from.
    fn parts(&self, file: usize) -> (&str, &[Name])
        requires { file < length self.now }
        ensures { place_below result.0.now result.1.now ≡ slice_index_or self.now file [] }
    {
        match &self.files {
            Files::Below(files) => (&self.folder, files[file].names()),
            Files::Here(_) => (&self.folder, &[]),
        }
    }
}

/// A place, and each name after a slash.
pub(crate) fn place_below(alloc: Global, place: &str, names: &[Name]) -> Result<String, AllocError>
    ensures { IfOk result (λ below. string_bytes below ≡ place_below place.now names.now) }
{
    let mut below = String::with_capacity(alloc, length_below(place, names))?;
    below.push_str(place)?;
    for name in names {
        below.push('/')?;
        below.push_str(name.as_str())?;
    }
    Ok(below)
}

// How long that place is.
fn length_below(place: &str, names: &[Name]) -> usize {
    let mut length = place.len();
    for name in names {
        length = length
            .saturating_add(name.as_bytes().len())
            .saturating_add(1);
    }
    length
}

/// The place of a folder, less the slash at its end if it has one.
pub(crate) fn without_slash(folder: &str) -> &str
    ensures { result.now ≡ without_slash folder.now }
{
    match folder.strip_suffix('/') {
        Some(rest) => rest,
        None => folder,
    }
}
