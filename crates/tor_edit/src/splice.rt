//! The spelling of a root with another tracker: its other pairs are copied as they are spelled.
ghost use Rattle.std.specs.Prelude.{◌≡◌, ◌++◌, IfOk, OnOk, codes, option_map};
ghost use Rattle.tor_bencode.specs.Lawful.{IsLawful};
ghost use Rattle.tor_bencode.specs.RefView.{view};
ghost use Rattle.tor_bencode.specs.Spelling.{pairs_spelling, spelling, string_spelling};
ghost use Rattle.tor_edit.specs.Tracker.{tracker_edited};
ghost use Rattle.tor_edit.specs.steps.Cut.{tracker_pair};

use crate::places::{place_of, span_of_pairs};
use itoa::Buffer;
use std::alloc::{AllocError, Global};
use tor_bencode::ItemRef;

/// The spelling of the root, which these bytes spell, with this tracker alone, or with none.
pub(crate) fn edited(
    alloc: Global,
    bytes: &[u8],
    root: &ItemRef<'_>,
    tracker: Option<&[u8]>,
) -> Result<Vec<u8>, AllocError>
    requires lawful { IsLawful (view root.now) }
    requires spelled { bytes.now ≡ spelling (view root.now) }
    ensures { IfOk result (λ text.
        text.items ≡ spelling (tracker_edited (view root.now) (option_map (λ url. url.now) tracker.entry))) }
{
    let ItemRef::Dict(pairs) = root else {
        return Vec::from_slice(alloc, bytes);
    };
    let pairs = pairs.as_slice();
    let announce = place_of(pairs, b"announce");
    let (_, later) = pairs.split_at(announce.through);
    let list = place_of(later, b"announce-list");
    let first = span_of_pairs(bytes, root, pairs, 0, announce.before);
    let second = span_of_pairs(
        bytes,
        root,
        pairs,
        announce.through,
        announce.through + list.before,
    );
    let third = span_of_pairs(
        bytes,
        root,
        pairs,
        announce.through + list.through,
        pairs.len(),
    );
    joined(alloc, first, tracker, second, third)
}

/// A dictionary of pairs that are spelled so, with the tracker after the first of them.
fn joined(
    alloc: Global,
    first: &[u8],
    tracker: Option<&[u8]>,
    second: &[u8],
    third: &[u8],
) -> Result<Vec<u8>, AllocError>
    ensures { IfOk result (λ text. text.items ≡ codes "d" ++ (first.now
        ++ (pairs_spelling (tracker_pair (option_map (λ url. url.now) tracker.entry)) ++ (second.now ++ third.now)))
        ++ codes "e") }
{
    let mut out = Vec::new(alloc);
    out.push(b'd')?;
    out.extend_from_slice(first)?;
    if let Some(url) = tracker {
        write_tracker(&mut out, url)?;
    }
    out.extend_from_slice(second)?;
    out.extend_from_slice(third)?;
    out.push(b'e')?;
    Ok(out)
}

/// Writes `announce` and its value.
fn write_tracker(out: &mut Vec<u8>, url: &[u8]) -> Result<(), AllocError>
    ensures { OnOk result (out.new.items ≡ out.old.items ++ pairs_spelling (tracker_pair (Some url.now))) }
{
    write_string(out, b"announce")?;
    write_string(out, url)
}

fn write_string(out: &mut Vec<u8>, bytes: &[u8]) -> Result<(), AllocError>
    ensures { OnOk result (out.new.items ≡ out.old.items ++ string_spelling bytes.now) }
{
    out.extend_from_slice(Buffer::new().format(bytes.len()).as_bytes())?;
    out.push(b':')?;
    out.extend_from_slice(bytes)
}
