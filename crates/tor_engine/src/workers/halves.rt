//! Work shared among workers by halves.
ghost use Rattle.std.specs.Prelude.{◌≡◌, IfErr, IfOk};
ghost use Rattle.std.specs.Thread.{IsSend, IsSync};

use std::thread::{Threads, join};

/// Work that one worker does, or two do of which each has a half: `SharedSeat` (`shared_seat.rt`), a seat at a board,
/// from which all units are claimed; `UnitShare` (`turn.rt`), units that are dealt out beforehand.
pub(crate) trait Divisible: Send + Drop {
    type Answer: Send + Drop;

    /// The work can be done.
    ghost may_answer: { Self → Type 0 };

    /// The work may answer this.
    ghost is_answer: { Self → Self.Answer → Type 0 };

    /// The work is cut into these two.
    ghost halves: { Self → Self → Self → Type 0 };

    /// Two halves, or the whole again, if it is too little for two.
    fn halve(self) -> Result<(Self, Self), Self>
        requires { may_answer self }
        ensures whole { IfErr result (λ whole. whole ≡ self) }
        ensures halves { IfOk result (λ both. may_answer both.0 × may_answer both.1 × halves self both.0 both.1) };

    /// Does the work.
    fn answer(self) -> Self::Answer
        requires { may_answer self }
        ensures { is_answer self result };

    /// The answer of the whole, from those of its halves.
    fn join(one: Self::Answer, other: Self::Answer) -> Self::Answer
        requires { (whole : Self) × (first : Self) × (second : Self) × halves whole first second
            × is_answer first one × is_answer second other }
        ensures { (whole first second : Self) → halves whole first second → is_answer first one →
            is_answer second other → is_answer whole result };
}

/// What the work answers, done by so many workers: both halves at once, and each again in halves while there are
/// workers. Not only `How::Halves` has its threads by this, but also `How::Board`.
pub(crate) fn by_halves<S: Divisible, R: Threads + Sync>(
    rt: &R,
    share: S,
    workers: u32,
) -> S::Answer
    requires { S.may_answer share }
    ensures { S.is_answer share result }
{
    if workers < 2 {
        return share.answer();
    }
    match share.halve() {
        Err(share) => share.answer(),
        Ok((first, second)) => {
            let fewer = workers / 2;
            let rest = workers - fewer;
            let (one, other) = join(
                rt,
                move || -> S::Answer
                    requires { IsSync R.row × IsSend S.row × S.may_answer first }
                    ensures { S.is_answer first result }
                { by_halves(rt, first, fewer) },
                move || -> S::Answer
                    requires { IsSync R.row × IsSend S.row × S.may_answer second }
                    ensures { S.is_answer second result }
                { by_halves(rt, second, rest) },
            );
            S::join(one, other)
        }
    }
}
