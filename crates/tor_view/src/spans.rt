//! Which pieces have bytes of each file of a torrent.
ghost use Rattle.std.specs.Prelude.{◌≡◌, ◌+◌, ◌^◌, ◌<◌, ◌≤◌, ◌++◌, IfOk, OnOk, sum_by};
ghost use Rattle.tor_plan.specs.Entries.{entries_length};
ghost use Rattle.tor_view.specs.Files.{file_spans, joined_span, joined_spans, tree_spans};
ghost use Rattle.tor_view.specs.Pieces.{IsCut};
ghost use Rattle.tor_view.specs.steps.Spans.{span_of_entry};
ghost use Rattle.tor_spec.specs.valid.Layers.{pieces_in};
ghost use Rattle.tor_tree.specs.declared.lists.TheConstants.{MAX_TOTAL};

use std::alloc::{AllocError, Global};
use tor_check::{Torrent, ViewFile};
use tor_v1::Entry;

/// The pieces that have bytes of a file of this length.
#[derive(Clone, Copy)]
pub(crate) struct FileSpan {
    pub length: u64,
    /// The first of them.
    pub first: u64,
    /// The first after them.
    pub after: u64,
    /// How many bytes of the first stand before the file.
    pub lead: u64,
}

/// For each file of the torrent, in its order, padding not counted.
pub(crate) fn spans_of(alloc: Global, torrent: &Torrent) -> Result<Vec<FileSpan>, AllocError>
    ensures spans { IfOk result (λ spans. spans.items ≡ file_spans torrent.now) }
    ensures cut { IsCut torrent.now }
{
    let files = torrent.files();
    if torrent.kind().has_v2() {
        return tree_spans(alloc, torrent.piece_length(), files);
    }
    joined_spans(alloc, torrent.piece_length(), torrent.entries())
}

/// The spans of files whose pieces are numbered file by file.
fn tree_spans(
    alloc: Global,
    piece_length: u64,
    files: &[ViewFile],
) -> Result<Vec<FileSpan>, AllocError>
    requires some { 0 < piece_length }
    requires few { sum_by (λ told. pieces_in piece_length told.file.length) files.now ≤ MAX_TOTAL }
    ensures { IfOk result (λ spans. spans.items ≡ tree_spans piece_length 0 files.now) }
{
    let mut spans = Vec::with_capacity(alloc, files.len())?;
    let mut first = 0;
    'files: for file in files {
        let length = file.file().length;
        let after = first + length.div_ceil(piece_length);
        spans.push(FileSpan {
            length,
            first,
            after,
            lead: 0,
        })?;
        first = after;
    }
    Ok(spans)
}

/// The spans of files if the bytes of all entries are joined, padding among them.
fn joined_spans(
    alloc: Global,
    piece_length: u64,
    entries: &[Entry],
) -> Result<Vec<FileSpan>, AllocError>
    requires some { 0 < piece_length }
    requires total { entries_length entries.now ≤ MAX_TOTAL }
    ensures { IfOk result (λ spans. spans.items ≡ joined_spans piece_length 0 entries.now) }
{
    let mut spans = Vec::with_capacity(alloc, entries.len())?;
    let mut start = 0;
    'entries: for entry in entries {
        add_span(piece_length, start, entry, &mut spans)?;
        start += entry.length;
    }
    Ok(spans)
}

/// Adds the span of an entry that begins at this byte, unless it is padding.
fn add_span(
    piece_length: u64,
    start: u64,
    entry: &Entry,
    spans: &mut Vec<FileSpan>,
) -> Result<(), AllocError>
    requires some { 0 < piece_length }
    requires small { start + entry.now.length < 2 ^ 64 }
    ensures { OnOk result (spans.new.items ≡ spans.old.items ++ span_of_entry piece_length start entry.now) }
{
    if !entry.pad {
        spans.push(joined_span(piece_length, start, entry.length))?;
    }
    Ok(())
}

/// The span of a file that begins at this byte.
fn joined_span(piece_length: u64, start: u64, length: u64) -> FileSpan
    requires some { 0 < piece_length }
    requires small { start + length < 2 ^ 64 }
    ensures { result ≡ joined_span piece_length start length }
{
    let first = start / piece_length;
    FileSpan {
        length,
        first,
        after: if length > 0 {
            (start + length).div_ceil(piece_length)
        } else {
            first
        },
        lead: start % piece_length,
    }
}
