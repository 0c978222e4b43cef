//! A plan read: what its bytes tell.
ghost use Rattle.std.specs.Prelude.{◌≡◌, ◌<◌, ◌^◌, ◌∷◌, ◌++◌, [], ℕ, All, IfOk, IfSome, IsSomeAnd, List, None, Ok};
ghost use Rattle.std.specs.Prelude.{Some};
ghost use Rattle.std.specs.Prelude.{◌==◌, Option, false, is_some, length, map, option_map, pos, position};
ghost use Rattle.std.specs.List.{AllByRecursion, flat_map};
ghost use Rattle.std.specs.Option.{option_copied};
ghost use Rattle.tor_bencode.specs.Data.{integer, string};
ghost use Rattle.tor_bencode.specs.Find.{value_of};
ghost use Rattle.tor_bencode.specs.RefView.{view};
ghost use Rattle.tor_meta.specs.Head.{settings_of};
ghost use Rattle.tor_meta.specs.PlanText.{IsPlanText, PlanText, file_items, kind_text, letters_text, path_text};
ghost use Rattle.tor_meta.specs.PlanText.{plan_bytes, plan_dictionary};
ghost use Rattle.tor_meta.specs.steps.PlanParts.{AreLists, IsFileRead, IsHeadRead, parts_text};
ghost use Rattle.tor_meta.specs.declared.plans.plan_reading.PlanParts.{PlanParts};
ghost use Rattle.tor_tree.specs.FileList.{files_with_attrs};
ghost use Rattle.tor_tree.specs.Name.{has_byte, name_fault, slash};
ghost use Rattle.tor_tree.specs.Path.{IsFilePath};
ghost use Rattle.tor_tree.specs.Properties.{as_integer, as_string};
ghost use Rattle.tor_tree.specs.declared.attr.Attr.{Attr};

use crate::head::Head;
use crate::plans::plan_text::plan_bytes;
use std::alloc::{AllocError, Global};
use tor_bencode::{BenError, ItemRef, decode_ref};
use tor_tree::{Attr, FilePath, Kind, Name, NameError};

/// What a plan tells, not judged.
#[derive(Drop)]
pub(crate) struct PlanParts {
    pub(crate) head: Head,
    pub(crate) span: u32,
    pub(crate) files: Vec<(FilePath, u64)>,
    pub(crate) attrs: Vec<Attr>,
}

/// What these bytes tell, as [`plan_bytes`] writes it; None if they are those of no plan.
pub(crate) fn read_plan_parts(alloc: Global, bytes: &[u8]) -> Result<Option<PlanParts>, AllocError>
    ensures read { (parts : PlanParts) → result ≡ Ok (Some parts) →
        (bytes.now ≡ plan_bytes (parts_text parts)) × IsPlanText (parts_text parts) }
    ensures all { (text : PlanText) → IsPlanText text → bytes.now ≡ plan_bytes text →
        IfOk result (λ parts. IsSomeAnd parts (λ parts. parts_text parts ≡ text)) }
{
    let item = match decode_ref(alloc, bytes) {
        Ok(item) => item,
        Err(BenError::Memory) => return Err(AllocError),
        Err(BenError::Refused { .. }) => return Ok(None),
    };
    let Some(parts) = parts_in(alloc, &item)? else {
        return Ok(None);
    };
    let again = plan_bytes(alloc, &parts.head, parts.span, &parts.files, &parts.attrs)?;
    if again.as_slice() == bytes {
        Ok(Some(parts))
    } else {
        Ok(None)
    }
}

/// What the keys of a tree tell; other keys may be there too.
fn parts_in(alloc: Global, root: &ItemRef<'_>) -> Result<Option<PlanParts>, AllocError>
    ensures is { IfOk result (λ parts. IfSome parts (λ parts. IsPlanText (parts_text parts))) }
    ensures all { (text : PlanText) → IsPlanText text → view root.now ≡ plan_dictionary text →
        IfOk result (λ parts. IsSomeAnd parts (λ parts. parts_text parts ≡ text)) }
{
    let Some(span) = span_in(root) else {
        return Ok(None);
    };
    let Some(head) = head_in(alloc, root)? else {
        return Ok(None);
    };
    let Some((files, attrs)) = files_in(alloc, root)? else {
        return Ok(None);
    };
    Ok(Some(PlanParts {
        head,
        span,
        files,
        attrs,
    }))
}

/// How many pieces a unit has.
fn span_in(root: &ItemRef<'_>) -> Option<u32>
    ensures is { IfSome result (λ span. span < 2 ^ 32) }
    ensures all { (text : PlanText) → IsPlanText text → view root.now ≡ plan_dictionary text →
        result ≡ Some text.span }
{
    let span = number_at(root, b"span")?;
    u32::try_from(span).ok()
}

/// What the torrent is made with, beside its files.
fn head_in(alloc: Global, root: &ItemRef<'_>) -> Result<Option<Head>, AllocError>
    ensures is { IfOk result (λ head. IfSome head IsHeadRead) }
    ensures all { (text : PlanText) → IsPlanText text → view root.now ≡ plan_dictionary text →
        IfOk result (λ head. IsSomeAnd head (λ head. settings_of head ≡ text.settings)) }
{
    let (Some(kind), Some(piece_length), Some(name)) = (
        kind_in(root),
        number_at(root, b"piece length"),
        text_at(root, b"name"),
    ) else {
        return Ok(None);
    };
    let Some(name) = name_of(alloc, name)? else {
        return Ok(None);
    };
    let announce = url_in(alloc, root)?;
    Ok(Some(Head {
        kind,
        single: is_there(root, b"single"),
        name,
        piece_length,
        announce,
        is_private: is_there(root, b"private"),
        tail: is_there(root, b"tail"),
    }))
}

/// The kind.
fn kind_in(root: &ItemRef<'_>) -> Option<Kind>
    ensures { (text : PlanText) → view root.now ≡ plan_dictionary text → result ≡ Some text.settings.kind }
{
    kind_of(text_at(root, b"kind")?)
}

/// The kind whose word this is.
fn kind_of(word: &[u8]) -> Option<Kind>
    ensures { (kind : Kind) → word.now ≡ kind_text kind → result ≡ Some kind }
{
    match word {
        b"v1" => Some(Kind::V1),
        b"v2" => Some(Kind::V2),
        b"hybrid" => Some(Kind::Hybrid),
        _ => None,
    }
}

/// The tracker's URL, if there is one.
fn url_in(alloc: Global, root: &ItemRef<'_>) -> Result<Option<Vec<u8>>, AllocError>
    ensures { (text : PlanText) → view root.now ≡ plan_dictionary text →
        IfOk result (λ url. option_map (λ bytes. bytes.items) url ≡ text.settings.announce) }
{
    match text_at(root, b"announce") {
        Some(url) => Ok(Some(Vec::from_slice(alloc, url)?)),
        None => Ok(None),
    }
}

/// The byte string of a key.
fn text_at<'a>(root: &ItemRef<'a>, key: &[u8]) -> Option<&'a [u8]>
    ensures { option_copied result ≡ as_string (value_of key.now (view root.now)) }
{
    match root.get(key)? {
        ItemRef::Bytes(text) => Some(text),
        _ => None,
    }
}

/// The number of a key, from 0 to 2^63 - 1.
fn number_at(root: &ItemRef<'_>, key: &[u8]) -> Option<u64>
    ensures is { IfSome result (λ number. number < 2 ^ 63) }
    ensures all { (n : ℕ) → n < 2 ^ 63 → as_integer (value_of key.now (view root.now)) ≡ Some (pos n) →
        result ≡ Some n }
{
    number_of(integer_at(root, key)?)
}

/// The integer of a key.
fn integer_at(root: &ItemRef<'_>, key: &[u8]) -> Option<i64>
    ensures { result ≡ as_integer (value_of key.now (view root.now)) }
{
    match root.get(key)? {
        ItemRef::Int(number) => Some(*number),
        _ => None,
    }
}

/// A number that is not below 0.
fn number_of(number: i64) -> Option<u64>
    ensures is { IfSome result (λ number. number < 2 ^ 63) }
    ensures all { (n : ℕ) → number ≡ pos n → result ≡ Some n }
{
    u64::try_from(number).ok()
}

/// Whether a key is there.
fn is_there(root: &ItemRef<'_>, key: &[u8]) -> bool
    ensures { result ≡ is_some (value_of key.now (view root.now)) }
{
    root.get(key).is_some()
}

/// The name of these bytes, if they are one.
fn name_of(alloc: Global, bytes: &[u8]) -> Result<Option<Name>, AllocError>
    ensures is { IfOk result (λ name. IfSome name (λ name. name_fault name ≡ None)) }
    ensures all { name_fault bytes.now ≡ None → IfOk result (λ name. IsSomeAnd name (λ name. name ≡ bytes.now)) }
{
    match Name::new(alloc, bytes) {
        Ok(name) => Ok(Some(name)),
        Err(NameError::Memory) => Err(AllocError),
        Err(_) => Ok(None),
    }
}

/// The files, and the letters of each.
fn files_in(
    alloc: Global,
    root: &ItemRef<'_>,
) -> Result<Option<(Vec<(FilePath, u64)>, Vec<Attr>)>, AllocError>
    ensures is { IfOk result (λ both. IfSome both (λ both. AreLists both.0.items both.1.items)) }
    ensures all { (text : PlanText) → IsPlanText text → view root.now ≡ plan_dictionary text →
        IfOk result (λ both. IsSomeAnd both (λ both.
        (both.0.items ≡ text.list.files) × (both.1.items ≡ text.list.attrs))) }
{
    match root.get(b"files") {
        Some(ItemRef::List(items)) => read_files(alloc, items),
        _ => Ok(None),
    }
}

/// The files of a flat list, three items each, and the letters of each.
fn read_files(
    alloc: Global,
    items: &[ItemRef<'_>],
) -> Result<Option<(Vec<(FilePath, u64)>, Vec<Attr>)>, AllocError>
    ensures is { IfOk result (λ both. IfSome both (λ both. AreLists both.0.items both.1.items)) }
    ensures all { (text : PlanText) → IsPlanText text →
        map view items.now ≡ flat_map file_items (files_with_attrs text.list) →
        IfOk result (λ both. IsSomeAnd both (λ both.
        (both.0.items ≡ text.list.files) × (both.1.items ≡ text.list.attrs))) }
{
    let count = items.len() / 3;
    let mut files = Vec::with_capacity(alloc, count)?;
    let mut attrs = Vec::with_capacity(alloc, count)?;
    'files: for index in 0..count {
        let at = 3 * index;
        match read_file(alloc, &items[at], &items[at + 1], &items[at + 2])? {
            Some((path, length, attr)) => {
                files.push((path, length))?;
                attrs.push(attr)?;
            }
            None => return Ok(None),
        }
    }
    Ok(Some((files, attrs)))
}

/// A file whose letters, length and path these are.
fn read_file(
    alloc: Global,
    letters: &ItemRef<'_>,
    length: &ItemRef<'_>,
    path: &ItemRef<'_>,
) -> Result<Option<(FilePath, u64, Attr)>, AllocError>
    ensures is { IfOk result (λ file. IfSome file (λ file. IsFilePath file.0 × (file.1 < 2 ^ 63))) }
    ensures all { (file : (List (List ℕ) × ℕ) × Attr) → IsFilePath file.0.0 → file.0.1 < 2 ^ 63 →
        view letters.now ≡ string (letters_text file.1) → view length.now ≡ integer (pos file.0.1) →
        view path.now ≡ string (path_text file.0.0) → IfOk result (λ read. IsSomeAnd read (IsFileRead file)) }
{
    let (Some(attr), Some(length)) = (letters_in(letters), number_in(length)) else {
        return Ok(None);
    };
    match path_in(alloc, path)? {
        Some(path) => Ok(Some((path, length, attr))),
        None => Ok(None),
    }
}

/// The letters that these bytes are.
fn letters_in(item: &ItemRef<'_>) -> Option<Attr>
    ensures { (attr : Attr) → view item.now ≡ string (letters_text attr) → result ≡ Some attr }
{
    match item {
        ItemRef::Bytes(letters) => attr_of(letters),
        _ => None,
    }
}

/// The letters of this text.
fn attr_of(letters: &[u8]) -> Option<Attr>
    ensures { (attr : Attr) → letters.now ≡ letters_text attr → result ≡ Some attr }
{
    let (hidden, exec) = match letters {
        b"" => (false, false),
        b"x" => (false, true),
        b"h" => (true, false),
        b"hx" => (true, true),
        _ => return None,
    };
    Some(Attr { exec, hidden })
}

/// The number that an item is, from 0 to 2^63 - 1.
fn number_in(item: &ItemRef<'_>) -> Option<u64>
    ensures is { IfSome result (λ number. number < 2 ^ 63) }
    ensures all { (n : ℕ) → view item.now ≡ integer (pos n) → result ≡ Some n }
{
    match item {
        ItemRef::Int(number) => number_of(*number),
        _ => None,
    }
}

/// The path that an item is.
fn path_in(alloc: Global, item: &ItemRef<'_>) -> Result<Option<FilePath>, AllocError>
    ensures is { IfOk result (λ path. IfSome path IsFilePath) }
    ensures all { (path : List (List ℕ)) → IsFilePath path → view item.now ≡ string (path_text path) →
        IfOk result (λ read. IsSomeAnd read (λ read. read ≡ path)) }
{
    match item {
        ItemRef::Bytes(text) => path_of(alloc, text),
        _ => Ok(None),
    }
}

/// The path of these names, `/` between each two.
fn path_of(alloc: Global, text: &[u8]) -> Result<Option<FilePath>, AllocError>
    ensures is { IfOk result (λ path. IfSome path IsFilePath) }
    ensures all { (path : List (List ℕ)) → IsFilePath path → text.now ≡ path_text path →
        IfOk result (λ read. IsSomeAnd read (λ read. read ≡ path)) }
{
    let mut names = Vec::new(alloc);
    let mut rest = text;
    'names: while let Some((name, later)) = first_name(rest) {
        match name_of(alloc, name)? {
            Some(name) => names.push(name)?,
            None => return Ok(None),
        }
        rest = later;
    }
    match name_of(alloc, rest)? {
        Some(name) => names.push(name)?,
        None => return Ok(None),
    }
    Ok(FilePath::new(names))
}

/// The bytes before the first `/`, and those after it; none if there is no `/`.
fn first_name(text: &[u8]) -> Option<(&[u8], &[u8])>
    ensures none { has_byte slash text.now ≡ false → result ≡ None }
    ensures some { (name later : List ℕ) → has_byte slash name ≡ false → text.now ≡ name ++ slash ∷ later →
        IsSomeAnd result (λ both. (both.0.now ≡ name) × (both.1.now ≡ later)) }
    ensures shorter { IfSome result (λ both. length both.1.now < length text.now) }
{
    let at = slash_in(text)?;
    let (name, _) = text.split_at(at);
    let (_, later) = text.split_at(at + 1);
    Some((name, later))
}

/// Where the first `/` is.
fn slash_in(text: &[u8]) -> Option<usize>
    ensures value { result ≡ position (λ byte. byte == slash) text.now }
    ensures within { IfSome result (λ at. at < length text.now) }
{
    text.iter().position(|byte| *byte == b'/')
}
