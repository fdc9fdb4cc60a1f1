// The verdict on a file, and the line that is printed for it.
ghost use Rattle.std.specs.Prelude.{◌≡◌, ℕ, ◌^◌, ◌<◌, IfOk, Some, string_bytes};
ghost use Rattle.judgement.specs.Described.{Bounds};
ghost use Rattle.judgement.specs.Judged.{judging, verdict_on, printed, Judgeable};
ghost use Rattle.judgement.specs.Lines.{line};
ghost use Rattle.judgement.specs.declared.verdict.Verdict.TheVariants.{Stands as standing};

use crate::judge::judge;
use crate::verdict::Verdict;
use std::alloc::{AllocError, Global};

// The verdict on the bytes of a file. `Err` is want of memory.
pub fn verdict_on(heap: Global, input: &[u8]) -> Result<Verdict, AllocError>
    ensures value { IfOk result (λ v. verdict_on input.now ≡ Some v) }
    ensures always { Judgeable (judging input.now) }
    ensures bounds { IfOk result (λ v. (n : ℕ) → v ≡ standing n → (n < 2 ^ 64) × Bounds input.now n) }
{
    match judge(heap, input) {
        Ok(visits) => Ok(Verdict::Stands(visits)),
        Err(fault) => Ok(Verdict::Refused(fault.refusal()?)),
    }
}

// The line that is printed for the bytes of a file. `Err` is want of memory.
pub fn verdict_line(heap: Global, input: &[u8]) -> Result<String, AllocError>
    ensures value { IfOk result (λ text. string_bytes text ≡ printed input.now) }
    ensures bounds { IfOk result (λ text. (n : ℕ) → string_bytes text ≡ line (standing n) → Bounds input.now n) }
{
    let verdict = verdict_on(heap, input)?;
    line_of(heap, verdict)
}

// A verdict as a line.
fn line_of(heap: Global, verdict: Verdict) -> Result<String, AllocError>
    ensures { IfOk result (λ text. string_bytes text ≡ line verdict) }
{
    format!(in heap; "{verdict}\n")
}
