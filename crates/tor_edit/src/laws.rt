//! What a torrent keeps if its tracker changes: laws over the definitions alone.
ghost use Rattle.std.specs.Prelude.{◌≡◌, ◌-◌, ℕ, List, None, Option, Some, drop, option_map, take, codes};
ghost use Rattle.std.specs.Prelude.{◌≢◌, true};
ghost use Rattle.tor_bencode.specs.Data.{Data, string};
ghost use Rattle.tor_bencode.specs.Find.{value_of};
ghost use Rattle.tor_bencode.specs.Lawful.{IsLawful};
ghost use Rattle.tor_bencode.specs.Span.{span_of};
ghost use Rattle.tor_bencode.specs.Spelling.{spelling};
ghost use Rattle.tor_edit.specs.Tracker.{tracker_edited};
ghost use Rattle.tor_spec.specs.valid.Conditions.{IsTorrentOf};
ghost use Rattle.tor_spec.specs.valid.View.{view_of};
ghost use Rattle.tor_tree.specs.FileTree.{is_dictionary};

/// The keys of a root with another tracker: `announce` has its text or is not there, `announce-list` is not there, and
/// every other key has the value that it had.
pub fn values_with_a_tracker()
    ensures tracker { (root : Data) (tracker : Option (List ℕ)) → is_dictionary root ≡ true
        → value_of (codes "announce") (tracker_edited root tracker) ≡ option_map string tracker }
    ensures no_list { (root : Data) (tracker : Option (List ℕ))
        → value_of (codes "announce-list") (tracker_edited root tracker) ≡ None }
    ensures others { (root : Data) (tracker : Option (List ℕ)) (key : List ℕ)
        → key ≢ codes "announce" → key ≢ codes "announce-list"
        → value_of key (tracker_edited root tracker) ≡ value_of key root }
{}

/// `info` is spelled by the same bytes, so that both info hashes stay.
pub fn info_is_the_same()
    ensures value { (root : Data) (tracker : Option (List ℕ))
        → value_of (codes "info") (tracker_edited root tracker) ≡ value_of (codes "info") root }
    ensures bytes { (root : Data) (tracker : Option (List ℕ)) (start end start' end' : ℕ)
        → span_of (codes "info") root ≡ Some (start, end)
        → span_of (codes "info") (tracker_edited root tracker) ≡ Some (start', end')
        → take (end' - start') (drop start' (spelling (tracker_edited root tracker)))
        ≡ take (end - start) (drop start (spelling root)) }
{}

/// A root with another tracker is as lawful as it was.
pub fn edited_roots_are_lawful()
    ensures { (root : Data) (tracker : Option (List ℕ)) → IsLawful root → IsLawful (tracker_edited root tracker) }
{}

/// What was a torrent is one with another tracker, and describes the same: all but where `info` stands.
pub fn edited_torrents_are_torrents()
    ensures valid { (root : Data) (bytes : List ℕ) (tracker : Option (List ℕ)) → IsTorrentOf root bytes
        → IsTorrentOf (tracker_edited root tracker) (spelling (tracker_edited root tracker)) }
    ensures view { (root : Data) (tracker : Option (List ℕ))
        → let edited = view_of (tracker_edited root tracker) in
        edited ≡ record (view_of root) { info_span = edited.info_span } }
{}

/// Only the last tracker counts.
pub fn last_tracker_counts()
    ensures { (root : Data) (first last : Option (List ℕ)) → IsLawful root
        → tracker_edited (tracker_edited root first) last ≡ tracker_edited root last }
{}
