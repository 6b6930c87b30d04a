// What rules say is a `Result<(), Finding>`: all are kept, or this is what is broken first, where, and against what. In specs/ and proofs/ rules in the paper's
// sense, and the laws by which every layer judges.
#![tactic(auto)]

ghost use Rattle.std.specs.Prelude.{ℕ, ◌≤◌, ◌<◌};
ghost use Rattle.rule.specs.Each.{KeptBefore, JudgedEach};

use index::TokenIndex;

// A broken rule: its number; which of its clauses, from 1 on, and 0 where it has only one; the token at fault; and the token that
// this one stands against, which is the token itself where it stands against nothing.
#[derive(Clone, Copy)]
pub struct Finding {
    pub number: u8,
    pub clause: u8,
    pub token: TokenIndex,
    pub other: TokenIndex,
}

// Judges each index from `from` on, below `to`, in turn: the first that is not kept says what is broken. An index is judged only where
// all before it were kept.
pub fn judge_each<F: Fn(usize) -> Result<(), Finding>>(
    from: usize,
    to: usize,
    judge_at: F,
) -> Result<(), Finding>
    requires { (k : ℕ) → from ≤ k → k < to → KeptBefore (F.post judge_at) from k → F.pre judge_at k }
    ensures { JudgedEach (F.post judge_at) from to result }
{
    for k in from..to {
        judge_at(k)?;
    }
    Ok(())
}
