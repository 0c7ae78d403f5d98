// Where a line ends.
ghost use Rattle.std.specs.Prelude.{◌≡◌, ℕ, ◌+◌, ◌<◌, ◌∷◌, ◌++◌, length, IfSome, IfNone, ◌≢◌, slice_index};

// A line without its line feed, and the text after that.
#[derive(Clone, Copy)]
pub struct Cut<'a> {
    pub line: &'a [u8],
    pub rest: &'a [u8],
}

// The first line of the text; none where no line feed ends it.
pub fn first_line(text: &[u8]) -> Option<Cut<'_>>
    ensures whole { IfSome result (λ c. text.now ≡ c.line.now ++ 10 ∷ c.rest.now) }
    ensures first { IfSome result (λ c. (k : ℕ) → k < length c.line.now → slice_index c.line.now k ≢ 10) }
    ensures shorter { IfSome result (λ c. length c.line.now + length c.rest.now + 1 ≡ length text.now) }
    ensures none { IfNone result ((k : ℕ) → k < length text.now → slice_index text.now k ≢ 10) }
{
    let end = text.iter().position(|b| *b == b'\n')?;
    Some(Cut {
        line: &text[..end],
        rest: &text[end + 1..],
    })
}
