//! What a torrent is made with, beside its files.
ghost use Rattle.std.specs.Prelude.{◌≡◌, ◌≤◌};
ghost use Rattle.tor_merkle.specs.Layer.{IsPieceLength};
ghost use Rattle.tor_merkle.specs.declared.TheConstants.{MAX_LENGTH};
ghost use Rattle.tor_spec.specs.Settings.{is_aligned, layout_of};
ghost use Rattle.tor_meta.specs.Fed.{tail_length};
ghost use Rattle.tor_meta.specs.Head.{settings_of};

use tor_merkle::laws::piece_length_bounds;
use tor_tree::{Kind, Name};
use tor_v1::{Layout, padding_length};

/// How a torrent is to be made.
#[derive(Debug, Drop)]
pub struct Head {
    pub kind: Kind,
    /// It is of one file, which has the torrent's name (BEP 3, "info dictionary": `length` instead of `files`).
    pub single: bool,
    /// The name that it suggests for its content.
    pub name: Name,
    /// In bytes.
    pub piece_length: u64,
    /// The tracker's URL (BEP 3, "metainfo files": `announce`).
    pub announce: Option<Vec<u8>>,
    /// `private` (BEP 27).
    pub is_private: bool,
    /// Of a hybrid of files in a folder the last that is not empty has padding too (BEP 47, "padding files").
    pub tail: bool,
}

impl Head {
    /// Whether padding is to align the files to pieces.
    pub(crate) fn is_aligned(&self) -> bool
        ensures { result ≡ is_aligned self.now.kind self.now.single }
    {
        self.kind == Kind::Hybrid && !self.single
    }

    /// How the files stand in the list of BEP 3.
    pub(crate) fn layout(&self) -> Layout
        ensures { result ≡ layout_of (settings_of self.now) }
    {
        if !self.is_aligned() {
            return Layout::Joined;
        }
        if self.tail {
            Layout::AlignedTail
        } else {
            Layout::Aligned
        }
    }

    /// How many zeros follow one content of so many bytes.
    pub(crate) fn tail_length(&self, count: u64) -> u64
        requires piece { IsPieceLength self.now.piece_length }
        requires small { count ≤ MAX_LENGTH }
        ensures { result ≡ tail_length (layout_of (settings_of self.now)) self.now.piece_length count }
    {
        piece_length_bounds();
        match self.layout() {
            Layout::AlignedTail => padding_length(count, self.piece_length),
            Layout::Joined | Layout::Aligned => 0,
        }
    }
}
