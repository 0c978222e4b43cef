//! The files of a source hashed by workers.
ghost use Rattle.std.specs.Prelude.{◌≡◌, ℕ, List, None, Option, IfErr, IfOk, MatchResult, length};
ghost use Rattle.tor_engine.specs.PieceFault.{first_piece_fault};
ghost use Rattle.tor_engine.specs.PieceHashes.{piece_hashes, pieces_of_plan};
ghost use Rattle.tor_engine.specs.There.{HasHashesWithin};
ghost use Rattle.tor_source.specs.Source.{SourceFacts};
ghost use Rattle.tor_sums.specs.Contents.{contents_in};
ghost use Rattle.tor_sums.specs.Fault.{IsFault, first_fault};
ghost use Rattle.tor_sums.specs.Given.{HasTold, HasToldLengths, IsGiven, IsGivenPieces};
ghost use Rattle.tor_sums.specs.How.{IsHow};
ghost use Rattle.tor_sums.specs.Sums.{AreSumsOfPlan, AreSumsOfSome};

use std::alloc::Global;
use std::thread::Threads;
use tor_engine::{EngineError, How, PieceHash, Sums, hash_all, hash_pieces};
use tor_plan::Plan;
use tor_source::Source;

/// The sums of the files of a plan, or the first fault in the order of the files.
pub fn sums_of_files<S: Source, R: Threads + Sync>(
    rt: &R,
    alloc: Global,
    source: &S,
    plan: &Plan,
    how: How,
) -> Result<Sums, EngineError<S::Fault>>
    requires { IsHow how }
    ensures summed { (facts : SourceFacts S.Fault) → S.is_steady source.now facts →
        MatchResult result
        (λ sums. AreSumsOfPlan plan.now (contents_in facts (length plan.now.lengths)) sums
        × (first_fault facts plan.now.lengths ≡ None))
        (IsFault (first_fault facts plan.now.lengths)) }
    ensures whole { IfOk result (AreSumsOfSome plan.now) }
    ensures told { IfOk result (λ _. HasToldLengths (S.answers source.now) plan.now.lengths) }
    ensures gave { IfErr result (IsGiven (S.answers source.now) plan.now.lengths) }
{
    hash_all(rt, alloc, source, plan, how)
}

/// What each piece of a plan hashes to, `None` if a byte of it is not there; or the first fault in the order of the
/// pieces.
pub fn hashes_of_pieces<S: Source, R: Threads + Sync>(
    rt: &R,
    alloc: Global,
    source: &S,
    plan: &Plan,
    how: How,
) -> Result<Vec<Option<PieceHash>>, EngineError<S::Fault>>
    requires { IsHow how }
    ensures hashed { (facts : SourceFacts S.Fault) → S.is_steady source.now facts →
        MatchResult result
        (λ hashes. (hashes.items ≡ piece_hashes plan.now (contents_in facts (length plan.now.lengths)))
        × (first_piece_fault facts plan.now ≡ None))
        (IsFault (first_piece_fault facts plan.now)) }
    ensures there { IfOk result (λ hashes. (lengths : List (Option ℕ)) × HasTold (S.answers source.now) lengths
        × HasHashesWithin plan.now lengths hashes.items) }
    ensures counted { IfOk result (λ hashes. length hashes.items ≡ length (pieces_of_plan plan.now)) }
    ensures gave { IfErr result (IsGivenPieces (S.answers source.now) (length plan.now.lengths)) }
{
    hash_pieces(rt, alloc, source, plan, how)
}
