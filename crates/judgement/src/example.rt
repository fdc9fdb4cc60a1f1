// A certificate file to try, with the examples that are worked out for it.
ghost use Rattle.std.specs.Prelude.{◌≡◌, IfOk, string_bytes, codes};
ghost use Rattle.judgement.specs.Examples.{one_visit, WorkedExamples};
ghost use Rattle.judgement.specs.Lines.{ended_line};

use crate::line::verdict_line;
use std::alloc::{AllocError, Global};

// A sheet of two locations, of which a run visits the second at most once, with its certificate.
pub fn one_visit() -> &'static [u8; 48]
    ensures { result.now ≡ one_visit 0 1 1 }
{
    b"\x01\x01\x02\x00\x02\x01\x03\x00\x01\x01\x05\x00\x04\x00\x01\x01\
      \x05\x01\x03\x02\x00\x06\x10\x00\x01\x11\x00\x00\x01\x00\x12\x01\
      \x00\x00\x00\x00\x11\x01\x01\x01\x00\x12\x01\x00\x00\x00\x00\x1f"
}

// The line that is printed for that file. The examples are proved over the definitions that every line follows.
pub fn one_visit_line(heap: Global) -> Result<String, AllocError>
    ensures value { IfOk result (λ text. string_bytes text ≡ ended_line (codes "STANDS 1")) }
    ensures worked { WorkedExamples }
{
    verdict_line(heap, one_visit())
}
