// What the sheet program prints.
ghost use Rattle.std.specs.Prelude.{IfOk, string_bytes};
ghost use Rattle.answers.specs.Answers.{OnlyAnswer, Ordered};

use std::alloc::{AllocError, Global};

// The one answer that the rules give to a text: its sheet, or the line that tells its fault.
pub fn answer(heap: Global, text: &[u8]) -> Result<String, AllocError>
    ensures only { IfOk result (λ s. OnlyAnswer text.now (string_bytes s)) }
    ensures order { Ordered }
{
    by_lines::sheet::sheet(heap, text)
}
