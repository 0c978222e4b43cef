//! The torrent of one content that was read.
ghost use Rattle.std.specs.Prelude.{◌≡◌, ◌≤◌, ◌∷◌, [], ℕ, List, None, IfOk, length};
ghost use Rattle.tor_merkle.specs.declared.TheConstants.{MAX_LENGTH};
ghost use Rattle.tor_meta.specs.Fed.{HasFed, tail_length};
ghost use Rattle.tor_meta.specs.steps.Sums.{SumsOfOne};
ghost use Rattle.tor_spec.specs.Hashes.{HasInfo};
ghost use Rattle.tor_meta.specs.Head.{settings_of};
ghost use Rattle.tor_meta.specs.Refusal.{paths_refusal};
ghost use Rattle.tor_meta.specs.Contents.{one_file};
ghost use Rattle.tor_spec.specs.Metainfo.{metainfo};
ghost use Rattle.tor_spec.specs.Settings.{layout_of};
ghost use Rattle.tor_tree.specs.FileList.{IsFileList};

use crate::fed::FedSums;
use crate::head::Head;
use crate::torrent::torrent_bytes;
use std::alloc::{AllocError, Global};
use tor_engine::Sums;
use tor_merkle::laws::piece_length_bounds;
use tor_tree::{Attr, FileList, FilePath, ListError, Name};

/// The bytes of the torrent of the one file that has the torrent's name, the content that was fed, and these letters.
pub fn make_fed(alloc: Global, head: &Head, fed: FedSums, attr: Attr) -> Result<Vec<u8>, AllocError>
    requires accepted { paths_refusal (settings_of head.now) ((head.now.name ∷ []) ∷ []) ≡ None }
    requires fed { (bytes : List ℕ) × HasFed fed head.now.kind head.now.piece_length bytes }
    ensures made { (bytes : List ℕ) → HasFed fed head.now.kind head.now.piece_length bytes →
        IfOk result (λ torrent. torrent.items ≡ metainfo (settings_of head.now) (one_file head.now.name bytes attr)) }
    ensures info { IfOk result (λ torrent. HasInfo torrent.items) }
{
    let count = fed.count();
    let sums = fed.finish(alloc, head.tail_length(count))?;
    make_summed(alloc, head, count, &sums, attr)
}

/// The bytes of the torrent of the one file that has the torrent's name, so many bytes, these sums, and these letters.
pub(crate) fn make_summed(
    alloc: Global,
    head: &Head,
    count: u64,
    sums: &Sums,
    attr: Attr,
) -> Result<Vec<u8>, AllocError>
    requires accepted { paths_refusal (settings_of head.now) ((head.now.name ∷ []) ∷ []) ≡ None }
    requires small { count ≤ MAX_LENGTH }
    requires summed { (bytes : List ℕ) × (length bytes ≡ count) × SumsOfOne head.now.kind head.now.piece_length bytes
        (tail_length (layout_of (settings_of head.now)) head.now.piece_length count) sums.now }
    ensures made { (bytes : List ℕ) → length bytes ≡ count →
        SumsOfOne head.now.kind head.now.piece_length bytes
        (tail_length (layout_of (settings_of head.now)) head.now.piece_length count) sums.now →
        IfOk result (λ torrent. torrent.items ≡ metainfo (settings_of head.now) (one_file head.now.name bytes attr)) }
    ensures info { IfOk result (λ torrent. HasInfo torrent.items) }
{
    let list = list_of_one(alloc, &head.name, count, attr)?;
    let bytes = torrent_bytes(alloc, head, &list, sums)?;
    Ok(bytes)
}

/// The list of one file that lies at the top, with its letters.
fn list_of_one(alloc: Global, name: &Name, length: u64, attr: Attr) -> Result<FileList, AllocError>
    requires { length ≤ MAX_LENGTH }
    ensures list { IfOk result
        (λ list. list ≡ record { files = (name.now ∷ [], length) ∷ []; attrs = attr ∷ [] }) }
    ensures lawful { IfOk result (λ list. IsFileList list.files) }
{
    let path = FilePath::of_name(alloc, name)?;
    match FileList::build(alloc, vec![in alloc; (path, length)]?) {
        Ok(list) => {
            let _files = list.files();
            Ok(list.with_attrs(vec![in alloc; attr]?))
        }
        Err(ListError::Memory) => Err(AllocError),
        Err(_) => unreachable!(),
    }
}
