//! `tor magnet`: what its words ask for, and the line that it prints.
ghost use Rattle.clap.specs.Words.{found_of, rows_of};
ghost use Rattle.std.specs.Prelude.{◌≡◌, IfOk, IfSome, None, Some, if◌then◌else◌, option_map, string_bytes};
ghost use Rattle.tor_bencode.specs.Data.{Data};
ghost use Rattle.tor_bencode.specs.Lawful.{IsLawful};
ghost use Rattle.tor_bencode.specs.RefView.{view};
ghost use Rattle.tor_bencode.specs.Spelling.{spelling};
ghost use Rattle.tor_cli.specs.check.Shown.{magnet_line, tracker_of};
ghost use Rattle.tor_report.specs.Told.{IsTorrentWith};
ghost use Rattle.tor_cli.specs.Words.{IsMagnetIn};
ghost use Rattle.tor_spec.specs.valid.View.{view_of};

use clap::ArgMatches;
use std::alloc::{AllocError, Global};
use tor_bencode::laws::no_spelling_begins_another;
use tor_bencode::{BenError, ItemRef, decode_ref};
use tor_check::Torrent;
use tor_report::Judged;
use tor_spec::magnet_with;

/// Which torrent's link is printed, and what stands in it.
#[derive(Clone, Copy)]
pub struct MagnetOptions<'a> {
    /// The file with the torrent.
    pub torrent: &'a str,
    pub words: LinkWords,
}

/// What stands in a magnet link beside the hashes.
#[derive(Clone, Copy)]
pub struct LinkWords {
    /// The torrent's name.
    pub name: bool,
    /// The URL of the tracker, if the torrent names one.
    pub tracker: bool,
}

/// Whose link is to be printed, of the words; none if `clap` let through words that have none.
pub fn magnet_options<'a>(matches: &ArgMatches<'a>) -> Option<MagnetOptions<'a>>
    ensures { IfSome result (λ options. IsMagnetIn options (rows_of (found_of matches.now))) }
{
    Some(MagnetOptions {
        torrent: matches.get_str("file")?,
        words: LinkWords {
            name: matches.get_flag("name"),
            tracker: matches.get_flag("trackers"),
        },
    })
}

/// The magnet link of the torrent that the bytes are.
pub fn link_line(
    alloc: Global,
    bytes: &[u8],
    judged: &Judged,
    words: LinkWords,
) -> Result<String, AllocError>
    requires { (root : Data) × (judged.now.torrent ≡ view_of root)
        × IsTorrentWith bytes.now root judged.now.hashes }
    ensures { (root : Data) → judged.now.torrent ≡ view_of root → IsTorrentWith bytes.now root judged.now.hashes →
        IfOk result (λ line. string_bytes line ≡ magnet_line words root judged.now.hashes) }
{
    let name = name_in(&judged.torrent, words);
    let tracker = tracker_in(alloc, bytes, words)?;
    let mut line = magnet_with(alloc, &judged.hashes, name, tracker)?;
    line.push('\n')?;
    Ok(line)
}

/// The torrent's name, if it is asked for.
fn name_in(torrent: &Torrent, words: LinkWords) -> Option<&[u8]>
    ensures { option_map (λ name. name.now) result ≡ (if words.name then Some torrent.now.name else None) }
{
    if words.name {
        return Some(torrent.name().as_bytes());
    }
    None
}

/// The URL of the tracker that the torrent names which the bytes are, if it is asked for.
fn tracker_in(alloc: Global, bytes: &[u8], words: LinkWords) -> Result<Option<&[u8]>, AllocError>
    ensures { (root : Data) → IsLawful root → bytes.now ≡ spelling root → IfOk result
        (λ tracker. option_map (λ url. url.now) tracker ≡ (if words.tracker then tracker_of root else None)) }
{
    if words.tracker {
        return told_tracker(alloc, bytes);
    }
    Ok(None)
}

/// The URL of the tracker that the torrent names which the bytes are.
fn told_tracker(alloc: Global, bytes: &[u8]) -> Result<Option<&[u8]>, AllocError>
    ensures { (root : Data) → IsLawful root → bytes.now ≡ spelling root →
        IfOk result (λ tracker. option_map (λ url. url.now) tracker ≡ tracker_of root) }
{
    no_spelling_begins_another();
    match decode_ref(alloc, bytes) {
        Ok(root) => Ok(tracker_of(&root)),
        Err(BenError::Memory) => Err(AllocError),
        Err(BenError::Refused { .. }) => Ok(None),
    }
}

/// The URL of the tracker that the tree of a torrent names.
fn tracker_of<'a>(root: &ItemRef<'a>) -> Option<&'a [u8]>
    ensures { option_map (λ url. url.now) result ≡ tracker_of (view root.now) }
{
    match root.get(b"announce") {
        Some(ItemRef::Bytes(url)) => Some(*url),
        _ => None,
    }
}
