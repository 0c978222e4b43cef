//! The torrent of a listing whose pieces were hashed in lots, by one machine or by several.
ghost use Rattle.std.specs.Prelude.{◌≡◌, ◌<◌, List, ℕ, IfOk, length, map};
ghost use Rattle.tor_bencode.specs.Spelling.{spelling};
ghost use Rattle.tor_meta.specs.Contents.{files_of};
ghost use Rattle.tor_spec.specs.Hashes.{HasInfo};
ghost use Rattle.tor_meta.specs.Listing.{text_of_listing};
ghost use Rattle.tor_meta.specs.Lots.{AreJoinedFacts, plan_of_text};
ghost use Rattle.tor_parts.specs.JoinedRows.{AreContentsOfEach, AreRowsOf, AreRowsOfEach, HasAllPieces, hashes_of};
ghost use Rattle.tor_parts.specs.JoinedRows.{sums_of};
ghost use Rattle.tor_spec.specs.Facts.{Facts};
ghost use Rattle.tor_spec.specs.Metainfo.{metainfo, root_dictionary};
ghost use Rattle.tor_tree.specs.FileList.{lengths_of};

use crate::listed_files::{plans_are_of_torrents, torrent_of_listing};
use crate::listing::Listing;
use std::alloc::{AllocError, Global};
use tor_engine::PieceRow;
use tor_parts::join_rows;
use tor_plan::Plan;

/// The bytes of the torrent of a listing, from the hashes of the lots of its plan, in the order of their numbers.
/// Whatever the hashes are, it is that with these hashes as layers, the roots over them, and these SHA-1. If the rows
/// are those of the same contents at all lots, it is the torrent of the contents. If each lot was hashed of files of
/// its own, it is that of contents that have at each lot the bytes that these files have there.
pub(crate) fn torrent_of_rows(
    alloc: Global,
    listing: &Listing,
    plan: &Plan,
    rows: &[PieceRow],
) -> Result<Vec<u8>, AllocError>
    requires planned { plan.now ≡ plan_of_text (text_of_listing listing.now) }
    requires some { 0 < length rows.now }
    requires counted { HasAllPieces plan.now rows.now }
    ensures made { (contents : List (List ℕ)) → map length contents ≡ lengths_of listing.now.list.files →
        AreRowsOf plan.now contents rows.now → IfOk result (λ bytes. bytes.items
        ≡ metainfo (text_of_listing listing.now).settings (files_of listing.now.list contents)) }
    ensures any { (facts : List Facts) → AreJoinedFacts (text_of_listing listing.now) (hashes_of rows.now) facts →
        IfOk result (λ bytes. bytes.items
        ≡ spelling (root_dictionary (text_of_listing listing.now).settings facts (sums_of rows.now))) }
    ensures whole { (others : ℕ → List (List ℕ)) → AreRowsOfEach plan.now others rows.now →
        IfOk result (λ bytes. (contents : List (List ℕ))
        × AreContentsOfEach plan.now others (length rows.now) contents
        × (bytes.items ≡ metainfo (text_of_listing listing.now).settings (files_of listing.now.list contents))) }
    ensures info { IfOk result (λ bytes. HasInfo bytes.items) }
{
    plans_are_of_torrents(listing);
    let sums = join_rows(alloc, plan, rows)?;
    let bytes = torrent_of_listing(alloc, listing, &sums)?;
    Ok(bytes)
}
