//! The names in one folder.
ghost use Rattle.std.specs.Prelude.{◌≡◌, IfOk, IfSome, map, vec_items};
ghost use Rattle.std.specs.List.Sorted.{IsStrictlySortedBy};
ghost use Rattle.tor_source.specs.steps.Listing.{HasSameNames, is_listed, names_in};
ghost use Rattle.tor_tree.specs.Path.{name_cmp};

use std::alloc::Global;
use std::io::{self, BufRead, BufReader, Read};

/// How many bytes of a folder's names are read at once. A read of a folder needs room for one whole name at least.
const BUFFER_LENGTH: usize = 32768;

/// The names in a folder but `.` and `..`, each once, rising by their bytes.
pub(crate) fn rising_names<D: Read + Drop>(alloc: Global, folder: D) -> io::Result<Vec<Vec<u8>>>
    ensures rising { IfOk result
        (λ names. IsStrictlySortedBy (λ name next. name_cmp name.items next.items) names.items) }
    ensures all { IfSome (D.remaining folder)
        (λ listing. IfOk result (λ names. HasSameNames (names_in listing) (map vec_items names.items))) }
{
    let mut names = names_of(
        alloc,
        BufReader::with_capacity(alloc, BUFFER_LENGTH, folder)?,
    )?;
    names.sort()?;
    names.dedup();
    Ok(names)
}

/// The names in a folder but `.` and `..`, as the system lists them.
fn names_of<B: BufRead + Drop>(alloc: Global, folder: B) -> io::Result<Vec<Vec<u8>>>
    ensures { IfSome (B.remaining folder)
        (λ listing. IfOk result (λ names. map vec_items names.items ≡ names_in listing)) }
{
    let mut names = Vec::new(alloc);
    for name in folder.split(alloc, 0) {
        let name = name?;
        if is_listed(&name) {
            names.push(name)?;
        }
    }
    Ok(names)
}

/// Whether this names a file or a folder in the one that is listed.
fn is_listed(piece: &[u8]) -> bool
    ensures { result ≡ is_listed piece.now }
{
    !matches!(piece, [] | [b'.'] | [b'.', b'.'])
}
