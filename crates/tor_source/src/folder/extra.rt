//! What was met below a folder and is none of given files.
ghost use Rattle.std.specs.Prelude.{◌≡◌, ◌∷◌, ◌++◌, [], IfOk, List, OnOk, length, map, vec_items, ℕ};
ghost use Rattle.std.specs.List.{filter};
ghost use Rattle.std.specs.List.Sorted.{IsPermutation, IsSorted};
ghost use Rattle.tor_source.specs.Extra.{extra_paths, is_below_pad, is_extra, is_one_of};
ghost use Rattle.tor_source.specs.Named.{path_of};
ghost use Rattle.tor_source.specs.Places.{names_bytes};
ghost use Rattle.tor_tree.specs.Path.{name_cmp};

use crate::refused::{Refused, names_bytes};
use std::alloc::{AllocError, Global};
use tor_tree::FilePath;

/// The paths of all that was met below a folder, of files that can be taken and of what is refused, but for those of
/// the files `known`, and of what is below the folder `.pad`, where a client keeps padding. Each is its names with a
/// slash between two; they are in the order of their bytes, none before one that is less. A path that was met twice is
/// told twice.
pub fn extra_paths(
    alloc: Global,
    taken: &[FilePath],
    refused: &[Refused],
    known: &[FilePath],
) -> Result<Vec<Vec<u8>>, AllocError>
    ensures all { IfOk result (λ extra. IsPermutation (extra_paths taken.now (map path_of refused.now) known.now)
        (map vec_items extra.items)) }
    ensures rising { IfOk result (λ extra. IsSorted (λ path next. name_cmp path.items next.items) extra.items) }
{
    let mut known = texts_of(alloc, known)?;
    known.sort()?;
    let mut extra = Vec::new(alloc);
    add_extra_files(alloc, taken, &known, &mut extra)?;
    add_extra_refused(alloc, refused, &known, &mut extra)?;
    extra.sort()?;
    Ok(extra)
}

// The bytes of each path.
fn texts_of(alloc: Global, paths: &[FilePath]) -> Result<Vec<Vec<u8>>, AllocError>
    ensures { IfOk result (λ texts. map vec_items texts.items ≡ map names_bytes paths.now) }
{
    let mut texts = Vec::with_capacity(alloc, paths.len())?;
    'paths: for path in paths {
        texts.push(names_bytes(alloc, path.names())?)?;
    }
    Ok(texts)
}

// Adds those of these paths that are none of the known ones, which do not fall.
fn add_extra_files(
    alloc: Global,
    taken: &[FilePath],
    known: &[Vec<u8>],
    extra: &mut Vec<Vec<u8>>,
) -> Result<(), AllocError>
    requires { IsSorted (λ path next. name_cmp path.items next.items) known.now }
    ensures { OnOk result (map vec_items extra.new.items ≡ map vec_items extra.old.items
        ++ filter (is_extra (map vec_items known.now)) (map names_bytes taken.now)) }
{
    'taken: for path in taken {
        add_extra(names_bytes(alloc, path.names())?, known, extra)?;
    }
    Ok(())
}

// Adds the paths of what was refused.
fn add_extra_refused(
    alloc: Global,
    refused: &[Refused],
    known: &[Vec<u8>],
    extra: &mut Vec<Vec<u8>>,
) -> Result<(), AllocError>
    requires { IsSorted (λ path next. name_cmp path.items next.items) known.now }
    ensures { OnOk result (map vec_items extra.new.items ≡ map vec_items extra.old.items
        ++ filter (is_extra (map vec_items known.now)) (map path_of refused.now)) }
{
    'refused: for one in refused {
        add_extra(Vec::from_slice(alloc, &one.path)?, known, extra)?;
    }
    Ok(())
}

// Adds a path, if it is none of the known ones.
fn add_extra(path: Vec<u8>, known: &[Vec<u8>], extra: &mut Vec<Vec<u8>>) -> Result<(), AllocError>
    requires { IsSorted (λ path next. name_cmp path.items next.items) known.now }
    ensures { OnOk result (map vec_items extra.new.items ≡ map vec_items extra.old.items
        ++ filter (is_extra (map vec_items known.now)) (path.items ∷ [])) }
{
    if is_extra(known, &path) {
        extra.push(path)?;
    }
    Ok(())
}

// Whether a path is none of the known ones, and not below the folder of padding.
fn is_extra(known: &[Vec<u8>], path: &Vec<u8>) -> bool
    requires { IsSorted (λ path next. name_cmp path.items next.items) known.now }
    ensures { result ≡ is_extra (map vec_items known.now) path.now.items }
{
    !is_known(known, path) && !is_below_pad(path)
}

fn is_known(known: &[Vec<u8>], path: &Vec<u8>) -> bool
    requires { IsSorted (λ path next. name_cmp path.items next.items) known.now }
    ensures { result ≡ is_one_of (map vec_items known.now) path.now.items }
{
    known.binary_search(path).is_ok()
}

fn is_below_pad(path: &[u8]) -> bool
    ensures { result ≡ is_below_pad path.now }
{
    path.starts_with(b".pad/")
}
