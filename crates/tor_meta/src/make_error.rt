//! Why no torrent is made of the files of a source.
ghost use Rattle.std.specs.Prelude.{◌≡◌};
ghost use Rattle.tor_meta.specs.MakeError.{of_contents_error, of_engine_error, out_of_resources};

use crate::refusals::ContentsError;
use std::alloc::{AllocError, AllocFailed};
use std::error::Error;
use std::fmt;
use tor_engine::EngineError;
use tor_tree::ListError;

/// Why no torrent is made of the files of a source. A file is named by its index among the paths that were handed in.
///
/// Those before `Hashing` are answered before the source is asked, but for a list's `TooLarge`, which is answered when
/// all lengths were told; the first that holds, and the faults of paths before `ReservedPad`.
#[derive(Debug, Drop)]
pub enum MakeError<F> {
    /// No power of two from 2^14 to 2^30.
    PieceLength,
    /// No worker, or more than 64.
    Workers,
    /// No power of two from 1 to 1,024.
    Span,
    /// A path of more than 64 names.
    Path,
    /// A single file is asked for, and there is not exactly one path that is the torrent's name.
    SingleShape,
    /// Readers are read in the order of their paths, and a path is not below the next.
    NotSorted,
    List(ListError),
    /// In a hybrid of a folder some path begins with `.pad`.
    ReservedPad,
    /// The files were not hashed, or their lengths not told. Want of memory, or of a thread, is `Resources` of it,
    /// wherever it comes.
    Hashing(EngineError<F>),
}

impl<F> fmt::Display for MakeError<F> {
    fn fmt<W: fmt::Write>(&self, f: &mut fmt::Formatter<W>) -> fmt::Result {
        match self {
            // The code and the name are its own.
            MakeError::List(fault) => write!(f, "{fault}"),
            MakeError::Hashing(fault) => write!(f, "{fault}"),
            MakeError::PieceLength => f.write_str("M1 PieceLength"),
            MakeError::Workers => f.write_str("M2 Workers"),
            MakeError::Span => f.write_str("M3 Span"),
            MakeError::Path => f.write_str("M4 Path"),
            MakeError::SingleShape => f.write_str("M5 SingleShape"),
            MakeError::NotSorted => f.write_str("M6 NotSorted"),
            MakeError::ReservedPad => f.write_str("Y1 ReservedPad"),
        }
    }
}

impl<F: fmt::Debug + Drop> Error for MakeError<F> {}

impl<F> From<ContentsError> for MakeError<F> {
    ghost from_gives = { λ refusal e. e ≡ of_contents_error refusal };

    fn from(refusal: ContentsError) -> MakeError<F> {
        match refusal {
            ContentsError::PieceLength => MakeError::PieceLength,
            ContentsError::Path => MakeError::Path,
            ContentsError::SingleShape => MakeError::SingleShape,
            ContentsError::List(fault) => MakeError::List(fault),
            ContentsError::ReservedPad => MakeError::ReservedPad,
            ContentsError::Memory => MakeError::Hashing(EngineError::Resources),
        }
    }
}

impl<F> From<EngineError<F>> for MakeError<F> {
    ghost from_gives = { λ error e. e ≡ of_engine_error error };

    fn from(error: EngineError<F>) -> MakeError<F> {
        MakeError::Hashing(error)
    }
}

impl<F> From<AllocError> for MakeError<F> {
    ghost from_gives = { λ _ e. e ≡ out_of_resources };

    fn from(_error: AllocError) -> MakeError<F> {
        MakeError::Hashing(EngineError::Resources)
    }
}

impl<F, T: Drop> From<AllocFailed<T>> for MakeError<F> {
    ghost from_gives = { λ _ e. e ≡ out_of_resources };

    fn from(_failed: AllocFailed<T>) -> MakeError<F> {
        MakeError::Hashing(EngineError::Resources)
    }
}
