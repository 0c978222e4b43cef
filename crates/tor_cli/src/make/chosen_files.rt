//! The files that `--files-from` chooses: a list of their paths, in a file or on standard input.
ghost use Rattle.std.specs.Prelude.{◌⊎◌, ◌≡◌, Some, IfErr, IfOk, OnOk, option_map};
ghost use Rattle.std.specs.List.Sorted.{IsPermutation, IsStrictlySortedBy};
ghost use Rattle.tor_tree.specs.FileList.{paths_fault};
ghost use Rattle.tor_tree.specs.Path.{path_cmp};
ghost use Rattle.tor_tree.specs.declared.lists.ListError.TheVariants.{Memory};
ghost use Rattle.tor_cli.specs.make.ChosenFiles.{IsChoice, IsListAt, IsNoChoice, IsUnread};

use crate::fault::Fault;
use crate::foreign::read_file;
use crate::make::paths_text::read_paths;
use std::alloc::Global;
use std::io::Read;
use std::rt::Files;
use tor_source::{InputFault, MAX_INPUT_LENGTH, read_limited};
use tor_tree::{FilePath, ListError, PathList, copy_paths};

/// The paths of the list that the word names, in order; none if there is no word.
pub fn chosen_files<H: Files, R: Read>(
    alloc: Global,
    system: &H,
    word: Option<&str>,
    reader: &mut R,
) -> Result<Option<Vec<FilePath>>, Fault>
    ensures chosen { IfOk result (λ chosen. IsChoice (option_map (λ word. word.now) word.entry)
        (R.remaining reader.old) (R.remaining reader.new) (option_map (λ paths. paths.items) chosen)) }
    ensures stopped { IfErr result (IsNoChoice (option_map (λ word. word.now) word.entry)
        (R.remaining reader.old) (R.remaining reader.new)) }
{
    let Some(word) = word else {
        return Ok(None);
    };
    let bytes = list_at(alloc, system, word, reader)?;
    let paths = read_paths(alloc, &bytes)?;
    Ok(Some(in_order(alloc, paths)?))
}

/// The bytes of the list that the word names.
fn list_at<H: Files, R: Read>(
    alloc: Global,
    system: &H,
    word: &str,
    reader: &mut R,
) -> Result<Vec<u8>, InputFault>
    ensures list { IfOk result
        (λ bytes. IsListAt word.now (R.remaining reader.old) (R.remaining reader.new) bytes.items) }
    ensures stopped { IfErr result (IsUnread word.now (R.remaining reader.old) (R.remaining reader.new)) }
{
    if word == "-" {
        read_limited(alloc, reader, MAX_INPUT_LENGTH)
    } else {
        read_file(alloc, system, word)
    }
}

/// The paths in order, if they are those of files.
fn in_order(alloc: Global, paths: Vec<FilePath>) -> Result<Vec<FilePath>, ListError>
    ensures same { IfOk result (λ sorted. IsPermutation paths.items sorted.items) }
    ensures rising { IfOk result (λ sorted. IsStrictlySortedBy path_cmp sorted.items) }
    ensures accepted { OnOk result (paths_fault paths.items ≡ None) }
    ensures refused { IfErr result (λ fault. (paths_fault paths.items ≡ Some fault) ⊎ (fault ≡ Memory)) }
{
    let list = PathList::build(alloc, paths)?;
    Ok(copy_paths(alloc, list.entries())?)
}
