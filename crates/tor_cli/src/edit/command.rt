//! `tor edit`: its doing.
ghost use Rattle.std.specs.Prelude.{◌≡◌, ◌<◌, ℕ, List, Option, IfErr, IfOk, OnOk, length, option_map};
ghost use Rattle.tor_cli.specs.edit.Editing.{DoesEdit, StopsEditing, tracker_of};
ghost use Rattle.tor_cli.specs.Foreign.{IsNoTorrent};
ghost use Rattle.tor_cli.specs.steps.Writing.{writing};
ghost use Rattle.tor_edit.specs.Tracker.{IsWithTracker};

use crate::edit::words::EditOptions;
use crate::fault::Fault;
use crate::foreign::read_file;
use crate::out_before::OutBefore;
use crate::whole_file::send_whole;
use std::alloc::Global;
use std::io::Write;
use tor_edit::with_tracker;

/// Writes the torrent in a file with another tracker, or with none. Nothing is written before it was judged.
pub fn edit<W: Write>(
    system: &HostRuntime,
    options: &EditOptions<'_>,
    out: &mut W,
) -> Result<(), Fault>
    ensures edited { (reader : Option (List ℕ)) → OnOk result (DoesEdit options.now (writing reader
        (W.contents out.old) (W.contents out.new))) }
    ensures stopped { (reader : Option (List ℕ)) → IfErr result (StopsEditing options.now (writing reader
        (W.contents out.old) (W.contents out.new))) }
{
    let before = OutBefore::at(system, options.out);
    let alloc = system.alloc();
    let bytes = read_file(alloc, system, options.torrent)?;
    let edited = edited_of(alloc, &bytes, options)?;
    send_whole(system, out, options.out, &before, &edited)
}

/// The torrent that the bytes are, with the tracker that the words name.
fn edited_of(alloc: Global, bytes: &[u8], options: &EditOptions<'_>) -> Result<Vec<u8>, Fault>
    ensures edited { IfOk result
        (λ edited. IsWithTracker bytes.now (tracker_of options.now) edited.items) }
    ensures some { IfOk result (λ edited. 0 < length edited.items) }
    ensures stopped { IfErr result (IsNoTorrent bytes.now) }
{
    match with_tracker(alloc, bytes, tracker_in(options)) {
        Ok(edited) => Ok(edited),
        Err(refusal) => Err(Fault::from(refusal)),
    }
}

fn tracker_in<'a>(options: &EditOptions<'a>) -> Option<&'a [u8]>
    ensures { option_map (λ url. url.now) result ≡ tracker_of options.now }
{
    let url = options.tracker?;
    Some(url.as_bytes())
}
