//! How contents are cut into chunks.
ghost use Rattle.std.specs.Prelude.{◌≡◌};
ghost use Rattle.tor_streams.specs.Streams.{IsStreamCut};

use crate::lane_span::lane_span;
use tor_tree::Kind;

/// How contents are cut into chunks: each by itself if the kind has trees, otherwise all as one.
#[derive(Clone, Copy)]
pub(crate) struct Chunking {
    pub(crate) kind: Kind,
    /// The bytes of a piece.
    pub(crate) piece_length: u64,
    /// The bytes of a chunk, which holds whole pieces.
    pub(crate) size: u64,
    /// Whether zeros fill the last piece of a hybrid's last content too.
    pub(crate) tail: bool,
}

impl Chunking {
    ghost use Rattle.tor_streams.specs.steps.Cuts.{IsChunking, told_of};

    /// For chunks of `span` pieces, or of fewer if those are many bytes.
    pub(crate) fn of(kind: Kind, piece_length: u64, span: u32, tail: bool) -> Chunking
        requires { IsStreamCut kind piece_length span }
        ensures cut { IsChunking result }
        ensures told { told_of result ≡ (kind, tail, piece_length) }
    {
        let size = piece_length * lane_span(kind, piece_length, span) as u64;
        Chunking {
            kind,
            piece_length,
            size,
            tail,
        }
    }
}
