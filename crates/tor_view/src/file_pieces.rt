//! Which pieces have bytes of each file, and which bytes of a file are in pieces whose bits are not set.
ghost use Rattle.std.specs.Prelude.{◌≡◌, ◌-◌, false, IfOk, OnOk, length, slice_index_or};
ghost use Rattle.tor_view.specs.FileBytes.{AreBadRanges, has_piece_between, pieced_files};
ghost use Rattle.tor_view.specs.steps.FileBytes.{IsSpanOf, with_range};

use crate::bits::Bits;
use crate::spans::{FileSpan, spans_of};
use std::alloc::{AllocError, Global};
use std::marker::Model;
use tor_check::Torrent;

/// A file of a torrent among its pieces: which of them have bytes of it. Contracts see its length, and these pieces.
#[derive(Drop)]
pub struct FilePieces {
    piece_length: u64,
    span: FileSpan,
}

/// Bytes of a file.
#[derive(Clone, Copy, Debug, PartialEq, Eq)]
pub struct ByteRange {
    /// The offset of the first of them.
    pub from: u64,
    /// That of the first after them.
    pub to: u64,
}

impl Model for FilePieces {
    ghost use Rattle.tor_view.specs.FileBytes.{PiecedFile};
    ghost use Rattle.tor_view.specs.steps.FileBytes.{IsSpanOf};

    ghost Value = { PiecedFile };

    ghost view = { λ file. record { piece_length = file.piece_length; span = file.span } };

    ghost invariant = { λ file. IsSpanOf file.piece_length file.span };
}

/// Each file of the torrent, in its order, padding not counted.
pub fn files_in_pieces(alloc: Global, torrent: &Torrent) -> Result<Vec<FilePieces>, AllocError>
    ensures files { IfOk result (λ files. files.items ≡ pieced_files torrent.now) }
    ensures counted { IfOk result (λ files. length files.items ≡ length torrent.now.files) }
{
    let piece_length = torrent.piece_length();
    let spans = spans_of(alloc, torrent)?;
    let mut files = Vec::with_capacity(alloc, spans.len())?;
    'files: for span in &spans {
        files.push(FilePieces {
            piece_length,
            span: *span,
        })?;
    }
    Ok(files)
}

impl FilePieces {
    /// How many bytes the torrent says that the file has.
    pub fn length(&self) -> u64
        ensures { result ≡ self.now.span.length }
    {
        self.span.length
    }

    /// The first piece that has bytes of it; of an empty file, the one that a byte there would be in.
    pub fn first(&self) -> u64
        ensures { result ≡ self.now.span.first }
    {
        self.span.first
    }

    /// How many pieces have bytes of it; an empty file has none.
    pub fn count(&self) -> u64
        ensures { result ≡ self.now.span.after - self.now.span.first }
    {
        self.span.after.saturating_sub(self.span.first)
    }

    /// Whether one of the pieces from one on, and before another, has bytes of it.
    pub fn has_piece_between(&self, from: u64, to: u64) -> bool
        ensures { result ≡ has_piece_between from to self.now }
    {
        from.max(self.span.first) < to.min(self.span.after)
    }

    /// Its bytes that are in pieces whose bits are not set, as ranges that rise and do not touch. It takes time as the
    /// file has pieces: that of all files together goes by the pieces and the files of the torrent.
    pub fn bad_ranges(&self, alloc: Global, bits: &Bits) -> Result<Vec<ByteRange>, AllocError>
        ensures { IfOk result (λ ranges. AreBadRanges self.now bits.now ranges.items) }
    {
        bad_ranges(alloc, self.piece_length, &self.span, bits)
    }
}

// The bytes of a file with this span that are in pieces whose bits are not set.
fn bad_ranges(
    alloc: Global,
    piece_length: u64,
    span: &FileSpan,
    bits: &Bits,
) -> Result<Vec<ByteRange>, AllocError>
    requires { IsSpanOf piece_length span.now }
    ensures { IfOk result (λ ranges. AreBadRanges
        (record { piece_length = piece_length; span = span.now }) bits.now ranges.items) }
{
    let mut ranges = Vec::new(alloc);
    let (mut begun, mut from) = (0, 0);
    let mut room = piece_length - span.lead;
    'pieces: for piece in span.first..span.after {
        let to = from + room.min(span.length - from);
        if is_set(bits, piece) {
            add_range(begun, from, &mut ranges)?;
            begun = to;
        }
        from = to;
        room = piece_length;
    }
    add_range(begun, from, &mut ranges)?;
    Ok(ranges)
}

// Whether a piece has a bit that is set.
fn is_set(bits: &Bits, piece: u64) -> bool
    ensures { result ≡ slice_index_or bits.now piece false }
{
    bits.get(piece) == Some(true)
}

// Adds these bytes, if there are any.
fn add_range(from: u64, to: u64, ranges: &mut Vec<ByteRange>) -> Result<(), AllocError>
    ensures { OnOk result (ranges.new.items ≡ with_range ranges.old.items from to) }
{
    if from < to {
        ranges.push(ByteRange { from, to })?;
    }
    Ok(())
}
