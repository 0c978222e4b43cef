//! Folders of a file tree that are files too (BEP 52, "file tree").
ghost use Rattle.std.specs.Prelude.{◌≡◌, ◌&&◌, nat_lt, length};
ghost use Rattle.tor_bencode.specs.Data.{keys_of};
ghost use Rattle.tor_bencode.specs.RefView.{view, pairs_view};
ghost use Rattle.tor_tree.specs.FileTree.{entries_mix, folder_mixes, has_empty_key, tree_mixes};

use tor_bencode::ItemRef;

/// Whether the tree itself has the empty key, or a folder below has it and another.
#[tactic(auto, using(crate::proofs::Mixing::mixing))]
pub fn mixes(item: &ItemRef<'_>) -> bool
    ensures { result ≡ tree_mixes (view item.now) }
{
    match item {
        ItemRef::Dict(pairs) => has_empty_key(pairs) || below_mixes(pairs),
        _ => false,
    }
}

#[cycle(mixes)]
#[tactic(auto, using(crate::proofs::Mixing::mixing))]
fn folder_mixes(item: &ItemRef<'_>) -> bool
    ensures { result ≡ folder_mixes (view item.now) }
{
    match item {
        ItemRef::Dict(pairs) => is_mixed(pairs) || below_mixes(pairs),
        _ => false,
    }
}

#[cycle(mixes)]
#[tactic(auto, using(crate::proofs::Mixing::mixing))]
fn below_mixes(pairs: &Vec<(&[u8], ItemRef<'_>)>) -> bool
    ensures { result ≡ entries_mix (pairs_view pairs.now.items) }
{
    for (key, value) in pairs {
        if !key.is_empty() && folder_mixes(value) {
            return true;
        }
    }
    false
}

/// Whether the empty key is there, and another.
#[tactic(auto, using(crate::proofs::Mixing::mixing))]
fn is_mixed(pairs: &[(&[u8], ItemRef<'_>)]) -> bool
    ensures { result ≡ (has_empty_key (pairs_view pairs.now) && nat_lt 1 (length (keys_of (pairs_view pairs.now)))) }
{
    has_empty_key(pairs) && pairs.len() > 1
}

fn has_empty_key(pairs: &[(&[u8], ItemRef<'_>)]) -> bool
    ensures { result ≡ has_empty_key (pairs_view pairs.now) }
{
    for (key, _) in pairs {
        if key.is_empty() {
            return true;
        }
    }
    false
}
