//! Writing a file tree (BEP 52, "file tree").
ghost use Rattle.std.specs.Prelude.{◌≡◌, ◌≤◌, ◌<◌, ◌+◌, ◌^◌, All, IfOk, OnOk, None, length, take, drop, true, false};
ghost use Rattle.std.specs.Prelude.{List, ℕ, codes, pos, slice_index_or};
ghost use Rattle.std.specs.List.{AllZip};
ghost use Rattle.tor_bencode.specs.Data.{integer, pair, string};
ghost use Rattle.tor_bencode.specs.View.{view, pairs_view};
ghost use Rattle.tor_tree.specs.FileTree.{tree_fault};
ghost use Rattle.tor_tree.specs.Properties.{properties_for};
ghost use Rattle.tor_tree.specs.TidyTree.{IsFileTreeOf, HasItsRoot};
ghost use Rattle.tor_tree.specs.steps.Writing.{IsRoot, files_below, has_name_at};
ghost use Rattle.tor_tree.specs.WrittenTree.{file_tree, pairs_of_files};
ghost use Rattle.tor_merkle.specs.declared.TheConstants.{MAX_LENGTH};

use crate::attr::Attr;
use crate::lists::FileList;
use crate::names::Name;
use crate::paths::FilePath;
use std::alloc::{AllocError, Global};
use tor_bencode::Item;
use tor_merkle::Hash;

/// The tidy file tree of the files with their letters: no empty folder, and no keys but those that are needed.
/// `roots` has the pieces root of each file, and none for an empty one.
pub fn to_item(alloc: Global, list: &FileList, roots: &[Option<Hash>]) -> Result<Item, AllocError>
    requires { AllZip HasItsRoot list.now.files roots.now }
    ensures made { IfOk result (λ tree. view tree ≡ file_tree list.now.files list.now.attrs roots.now) }
    ensures tidy { IfOk result (λ tree. IsFileTreeOf list.now.files list.now.attrs roots.now (view tree)) }
    ensures readable { IfOk result (λ tree. tree_fault (view tree) ≡ None) }
{
    Ok(Item::Dict(folder(alloc, list.files(), list.attrs(), roots, 0)?))
}

/// The pairs of the folder that is `depth` names down the paths of all the files.
#[cycle(folder)]
fn folder(
    alloc: Global,
    files: &[(FilePath, u64)],
    attrs: &[Attr],
    roots: &[Option<Hash>],
    depth: usize,
) -> Result<Vec<(Vec<u8>, Item)>, AllocError>
    requires deep { All (λ file. depth ≤ length file.0) files.now }
    requires small { All (λ file. file.1 ≤ MAX_LENGTH) files.now }
    requires letters_each { length attrs.now ≡ length files.now }
    requires one_each { length roots.now ≡ length files.now }
    ensures made { IfOk result
        (λ pairs. pairs_view pairs.items ≡ pairs_of_files (files_below depth files.now attrs.now roots.now)) }
    ensures rooted { OnOk result (All IsRoot roots.now) }
{
    let mut pairs = Vec::new(alloc);
    let mut start = 0;
    while start < files.len() {
        let next = next_pair(
            alloc,
            &files[start..],
            &attrs[start..],
            &roots[start..],
            depth,
        )?;
        start += next.count;
        pairs.push((next.key, next.value))?;
    }
    Ok(pairs)
}

/// The first pair of a folder, and how many of its files are in it.
#[derive(Drop)]
struct NextPair {
    key: Vec<u8>,
    value: Item,
    count: usize,
}

#[cycle(folder)]
fn next_pair(
    alloc: Global,
    files: &[(FilePath, u64)],
    attrs: &[Attr],
    roots: &[Option<Hash>],
    depth: usize,
) -> Result<NextPair, AllocError>
    requires some { 0 < length files.now }
    requires deep { All (λ file. depth ≤ length file.0) files.now }
    requires small { All (λ file. file.1 ≤ MAX_LENGTH) files.now }
    requires letters_each { length attrs.now ≡ length files.now }
    requires one_each { length roots.now ≡ length files.now }
    ensures count { IfOk result (λ next. (0 < next.count) × (next.count ≤ length files.now)) }
    ensures made { IfOk result (λ next. pairs_of_files (files_below depth files.now attrs.now roots.now)
        ≡ pair next.key.items (view next.value)
        (pairs_of_files (drop next.count (files_below depth files.now attrs.now roots.now)))) }
    ensures rooted { IfOk result (λ next. All IsRoot (take next.count roots.now)) }
{
    let (path, length) = &files[0];
    if path.names().len() == depth {
        return Ok(NextPair {
            key: Vec::new(alloc),
            value: properties(alloc, attrs[0], *length, &roots[0])?,
            count: 1,
        });
    }
    let name = &path.names()[depth];
    let count = run_len(files, depth, name);
    let inside = folder(
        alloc,
        &files[..count],
        &attrs[..count],
        &roots[..count],
        depth + 1,
    )?;
    Ok(NextPair {
        key: Vec::from_slice(alloc, name.as_bytes())?,
        value: Item::Dict(inside),
        count,
    })
}

/// How many of the first files have this name `depth` names down.
fn run_len(files: &[(FilePath, u64)], depth: usize, name: &Name) -> usize
    ensures within { result ≤ length files.now }
    ensures same { All (λ file. has_name_at depth name.now file.0 ≡ true) (take result files.now) }
    ensures ends { (d : List (List ℕ) × ℕ) → result < length files.now →
        has_name_at depth name.now (slice_index_or files.now result d).0 ≡ false }
{
    for (i, (path, _)) in files.iter().enumerate() {
        if !has_name_at(path, depth, name) {
            return i;
        }
    }
    files.len()
}

fn has_name_at(path: &FilePath, depth: usize, name: &Name) -> bool
    ensures { result ≡ has_name_at depth name.now path.now }
{
    match path.names().get(depth) {
        Some(found) => found == name,
        None => false,
    }
}

/// The properties of a file: its letters if it has any, its length, and its pieces root if it has one.
fn properties(
    alloc: Global,
    attr: Attr,
    length: u64,
    root: &Option<Hash>,
) -> Result<Item, AllocError>
    requires { length ≤ MAX_LENGTH }
    ensures made { IfOk result (λ made. view made ≡ properties_for attr length root.now) }
    ensures rooted { OnOk result (IsRoot root.now) }
{
    let mut pairs = Vec::new(alloc);
    if let Some(letters) = attr.letters() {
        pairs.push(string_pair(alloc, b"attr", letters)?)?;
    }
    pairs.push(length_pair(alloc, length)?)?;
    if let Some(root) = root {
        pairs.push(string_pair(alloc, b"pieces root", root)?)?;
    }
    Ok(Item::Dict(pairs))
}

fn string_pair(alloc: Global, key: &[u8], text: &[u8]) -> Result<(Vec<u8>, Item), AllocError>
    ensures key { IfOk result (λ made. made.0.items ≡ key.now) }
    ensures value { IfOk result (λ made. view made.1 ≡ string text.now) }
{
    Ok((
        Vec::from_slice(alloc, key)?,
        Item::Bytes(Vec::from_slice(alloc, text)?),
    ))
}

fn length_pair(alloc: Global, length: u64) -> Result<(Vec<u8>, Item), AllocError>
    requires { length ≤ MAX_LENGTH }
    ensures key { IfOk result (λ made. made.0.items ≡ codes "length") }
    ensures value { IfOk result (λ made. view made.1 ≡ integer (pos length)) }
{
    Ok((Vec::from_slice(alloc, b"length")?, Item::Int(length as i64)))
}
