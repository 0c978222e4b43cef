//! What a foreign torrent describes.
use std::marker::Model;
use std::sync::ArcSlice;
use tor_merkle::Hash;
use tor_tree::{Kind, Name, TreeFile};
use tor_v1::Entry;

/// A file of a torrent, and the hashes of its piece layer.
#[derive(Drop)]
pub struct ViewFile {
    pub(crate) file: TreeFile,
    /// Files of one root share their layer.
    pub(crate) layer: Option<ArcSlice<Hash>>,
}

impl Model for ViewFile {
    ghost use Rattle.tor_check.specs.steps.Layers.{hashes_of};
    ghost use Rattle.tor_spec.specs.valid.View.{FileView};

    ghost Value = { FileView };

    ghost view = { λ view. record { file = view.file; layer = hashes_of view.layer } };
}

impl ViewFile {
    ghost use Rattle.std.specs.Prelude.{◌≡◌};

    /// Path, length in bytes, root and letters. Without a v2 side a file has no root.
    pub fn file(&self) -> &TreeFile
        ensures { result.now ≡ self.now.file }
    {
        &self.file
    }

    /// The hashes of the layer where one covers one piece, lowest first (BEP 52, "piece layers"); none of a file of at
    /// most one piece.
    pub fn layer(&self) -> &[Hash]
        ensures { result.now ≡ self.now.layer }
    {
        match &self.layer {
            Some(layer) => layer.as_slice(),
            None => &[],
        }
    }
}

/// What a torrent describes. Contracts see a `View`.
#[derive(Drop)]
pub struct Torrent {
    pub(crate) kind: Kind,
    pub(crate) name: Name,
    pub(crate) piece_length: u64,
    pub(crate) is_private: bool,
    pub(crate) files: Vec<ViewFile>,
    pub(crate) entries: Vec<Entry>,
    pub(crate) pieces: Vec<u8>,
    pub(crate) info_span: (usize, usize),
    pub(crate) piece_count: u64,
}

impl Model for Torrent {
    ghost use Rattle.tor_check.specs.ValidViews.{IsViewOfValid};
    ghost use Rattle.tor_spec.specs.valid.View.{View};

    ghost Value = { View };

    ghost view = { λ torrent. record {
      kind = torrent.kind;
      name = torrent.name;
      piece_length = torrent.piece_length;
      is_private = torrent.is_private;
      files = torrent.files.items;
      entries = torrent.entries.items;
      pieces = torrent.pieces.items;
      info_span = torrent.info_span;
      piece_count = torrent.piece_count;
    } };

    ghost invariant = { λ torrent. IsViewOfValid (record {
      kind = torrent.kind;
      name = torrent.name;
      piece_length = torrent.piece_length;
      is_private = torrent.is_private;
      files = torrent.files.items;
      entries = torrent.entries.items;
      pieces = torrent.pieces.items;
      info_span = torrent.info_span;
      piece_count = torrent.piece_count;
    }) };
}

impl Torrent {
    ghost use Rattle.std.specs.Prelude.{◌≡◌, true};
    ghost use Rattle.tor_check.specs.ValidViews.{HasRisingPaths, IsViewOfValid};
    ghost use Rattle.tor_tree.specs.Kinds.{has_v2};

    /// Which sides it has.
    pub fn kind(&self) -> Kind
        ensures { result ≡ self.now.kind }
    {
        self.kind
    }

    /// The name that it suggests for its file or folder.
    pub fn name(&self) -> &Name
        ensures { result.now ≡ self.now.name }
    {
        &self.name
    }

    /// In bytes.
    pub fn piece_length(&self) -> u64
        ensures { result ≡ self.now.piece_length }
    {
        self.piece_length
    }

    /// Whether peers come from the tracker alone (BEP 27).
    pub fn is_private(&self) -> bool
        ensures { result ≡ self.now.is_private }
    {
        self.is_private
    }

    /// The files in the torrent's order, without padding; with a v2 side that is the order of their paths.
    pub fn files(&self) -> &[ViewFile]
        ensures value { result.now ≡ self.now.files }
        ensures valid { IsViewOfValid self.now }
        ensures rising { has_v2 self.now.kind ≡ true → HasRisingPaths self.now }
    {
        self.files.as_slice()
    }

    /// The files of the v1 side, padding among them; without that side none.
    pub fn entries(&self) -> &[Entry]
        ensures { result.now ≡ self.now.entries }
    {
        self.entries.as_slice()
    }

    /// The SHA-1 of each piece of the v1 side, one after another: 20 bytes each (BEP 3, "info dictionary").
    pub fn pieces(&self) -> &[u8]
        ensures { result.now ≡ self.now.pieces }
    {
        self.pieces.as_slice()
    }

    /// Where the bytes of `info` begin and end.
    pub fn info_span(&self) -> (usize, usize)
        ensures { result ≡ self.now.info_span }
    {
        self.info_span
    }

    /// How many pieces it has; with a v2 side they are counted file by file.
    pub fn piece_count(&self) -> u64
        ensures { result ≡ self.now.piece_count }
    {
        self.piece_count
    }
}
