//! Where the pairs of a root stand: among its keys, and in its bytes.
ghost use Rattle.std.specs.Prelude.{◌≡◌, ◌+◌, ◌-◌, ◌≤◌, drop, length, take};
ghost use Rattle.tor_bencode.specs.Data.{dictionary};
ghost use Rattle.tor_bencode.specs.Lawful.{IsLawful};
ghost use Rattle.tor_bencode.specs.RefView.{pairs_view, view};
ghost use Rattle.tor_bencode.specs.Spelling.{pairs_spelling, spelling};
ghost use Rattle.tor_edit.specs.steps.Cut.{after, before};

use std::cmp::Ordering;
use tor_bencode::{ItemRef, span_of_key};

/// Where a key stands among pairs, or would stand.
#[derive(Clone, Copy)]
pub(crate) struct Place {
    /// How many pairs come before the key.
    pub before: usize,
    /// How many pairs come up to the key, with its own if it is there.
    pub through: usize,
}

/// Where the key stands among pairs whose keys rise.
pub(crate) fn place_of(pairs: &[(&[u8], ItemRef<'_>)], key: &[u8]) -> Place
    ensures ordered { result.before ≤ result.through }
    ensures within { result.through ≤ length pairs.now }
    ensures front { pairs_view (take result.before pairs.now) ≡ before key.now (pairs_view pairs.now) }
    ensures back { pairs_view (drop result.through pairs.now) ≡ after key.now (pairs_view pairs.now) }
{
    'pairs: for index in 0..pairs.len() {
        match key.cmp(pairs[index].0) {
            Ordering::Less => return Place {
                before: index,
                through: index,
            },
            Ordering::Equal => return Place {
                before: index,
                through: index + 1,
            },
            Ordering::Greater => {}
        }
    }
    Place {
        before: pairs.len(),
        through: pairs.len(),
    }
}

/// The bytes that spell the pairs from an index to another.
pub(crate) fn span_of_pairs<'a>(
    bytes: &'a [u8],
    root: &ItemRef<'_>,
    pairs: &[(&[u8], ItemRef<'_>)],
    from: usize,
    to: usize,
) -> &'a [u8]
    requires lawful { IsLawful (view root.now) }
    requires seen { view root.now ≡ dictionary (pairs_view pairs.now) }
    requires spelled { bytes.now ≡ spelling (view root.now) }
    requires ordered { from ≤ to }
    requires within { to ≤ length pairs.now }
    ensures { result.now ≡ pairs_spelling (pairs_view (take (to - from) (drop from pairs.now))) }
{
    let start = end_of_pairs(root, pairs, from, bytes.len());
    let end = end_of_pairs(root, pairs, to, bytes.len());
    &bytes[start..end]
}

/// Where the first pairs end, as many as this, in the spelling of the root, which has so many bytes.
fn end_of_pairs(
    root: &ItemRef<'_>,
    pairs: &[(&[u8], ItemRef<'_>)],
    count: usize,
    size: usize,
) -> usize
    requires lawful { IsLawful (view root.now) }
    requires seen { view root.now ≡ dictionary (pairs_view pairs.now) }
    requires size { size ≡ length (spelling (view root.now)) }
    requires within { count ≤ length pairs.now }
    ensures { result ≡ 1 + length (pairs_spelling (pairs_view (take count pairs.now))) }
{
    if count == 0 {
        return 1;
    }
    let (_, end) = span_of_key(root, pairs[count - 1].0, size).unwrap_or((1, 1));
    end
}
