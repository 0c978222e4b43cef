//! The letters of files, from a file of the system (BEP 47, "attr").
ghost use Rattle.std.specs.Prelude.{◌≡◌, IfErr, IfOk, MatchOption, map, option_map};
ghost use Rattle.std.specs.List.{zip};
ghost use Rattle.std.specs.List.Sorted.{IsStrictlySortedBy};
ghost use Rattle.tor_tree.specs.FileList.{paths_of};
ghost use Rattle.tor_tree.specs.Path.{path_cmp};
ghost use Rattle.tor_cli.specs.make.Attrs.{AreAmong, AreLetteredBy, HaveLetters, IsNotLettered, letters_in, lettered};
ghost use Rattle.tor_cli.specs.steps.Lettering.{IsNotLetteredBy};

use crate::fault::Fault;
use crate::foreign::read_text;
use crate::make::attrs_text::read_attrs;
use crate::proof::claim::ArgumentFault;
use std::alloc::{AllocError, Global};
use tor_tree::{Attr, FilePath};

/// The files of these paths, which rise, with the letters that a file of the system has for them; none of them if no
/// file is named.
pub fn lettered_files(
    system: &HostRuntime,
    place: Option<&str>,
    paths: Vec<FilePath>,
) -> Result<Vec<(FilePath, Attr)>, Fault>
    requires { IsStrictlySortedBy path_cmp paths.items }
    ensures paths { IfOk result (λ files. paths_of files.items ≡ paths.items) }
    ensures letters { IfOk result
        (λ files. HaveLetters (option_map (λ place. place.now) place.entry) files.items) }
    ensures stopped { IfErr result (IsNotLettered (option_map (λ place. place.now) place.entry) paths.items) }
{
    let alloc = system.alloc();
    let Some(place) = place else {
        let attrs = Attr::none_each(alloc, &paths)?;
        return Ok(paths_with_attrs(alloc, paths, attrs)?);
    };
    let bytes = read_text(alloc, system, place)?;
    lettered_by(alloc, &bytes, paths)
}

/// The files of these paths, which rise, with the letters that the bytes of a file of letters have for them.
fn lettered_by(
    alloc: Global,
    bytes: &[u8],
    paths: Vec<FilePath>,
) -> Result<Vec<(FilePath, Attr)>, Fault>
    requires { IsStrictlySortedBy path_cmp paths.items }
    ensures paths { IfOk result (λ files. paths_of files.items ≡ paths.items) }
    ensures letters { IfOk result (λ files. AreLetteredBy bytes.now files.items) }
    ensures stopped { IfErr result (IsNotLetteredBy bytes.now paths.items) }
{
    let Some(named) = read_attrs(alloc, bytes)? else {
        return Err(Fault::Argument(ArgumentFault::Attrs));
    };
    match files_with_letters(alloc, paths, &named)? {
        Some(files) => Ok(files),
        None => Err(Fault::Argument(ArgumentFault::Attrs)),
    }
}

/// Each path with the letters that it has in a list. None if a path of the list is not among these.
fn files_with_letters(
    alloc: Global,
    paths: Vec<FilePath>,
    named: &[(FilePath, Attr)],
) -> Result<Option<Vec<(FilePath, Attr)>>, AllocError>
    requires { IsStrictlySortedBy path_cmp paths.items }
    ensures { IfOk result (λ found. MatchOption found (AreAmong paths.items named.now → ⊥)
        (λ files. (files.items ≡ lettered named.now paths.items) × AreAmong paths.items named.now)) }
{
    let Some(attrs) = attrs_of(alloc, &paths, named)? else {
        return Ok(None);
    };
    let files = paths_with_attrs(alloc, paths, attrs)?;
    Ok(Some(files))
}

/// The letters that each of these paths has in a list. None if a path of the list is not among them.
fn attrs_of(
    alloc: Global,
    paths: &[FilePath],
    named: &[(FilePath, Attr)],
) -> Result<Option<Vec<Attr>>, AllocError>
    requires { IsStrictlySortedBy path_cmp paths.now }
    ensures { IfOk result (λ found. MatchOption found (AreAmong paths.now named.now → ⊥)
        (λ attrs. (attrs.items ≡ map (letters_in named.now) paths.now) × AreAmong paths.now named.now)) }
{
    let mut attrs = Attr::none_each(alloc, paths)?;
    let mut left = named.len();
    'named: while left > 0 {
        left -= 1;
        let (path, attr) = &named[left];
        let Ok(place) = paths.binary_search(path) else {
            return Ok(None);
        };
        attrs[place] = *attr;
    }
    Ok(Some(attrs))
}

/// Each path with the letters beside it.
fn paths_with_attrs(
    alloc: Global,
    paths: Vec<FilePath>,
    attrs: Vec<Attr>,
) -> Result<Vec<(FilePath, Attr)>, AllocError>
    ensures { IfOk result (λ files. files.items ≡ zip paths.items attrs.items) }
{
    paths.into_iter().zip(attrs).collect(alloc)
}
