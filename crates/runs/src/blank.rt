// Whitespace between tokens (Shastina Specification, section 3.1). CR LF, which is cleaned to LF, is left to `scan`.
ghost use Rattle.std.specs.Prelude.{◌≡◌, ◌+◌, drop};
ghost use Rattle.tokens.specs.Sorts.{white as white_by};
ghost use Rattle.runs.specs.Bytes.{blanks};

use crate::past::past_bytes;

// Whether a byte is whitespace by itself.
pub fn white(b: u8) -> bool
    ensures { result ≡ white_by b }
{
    matches!(b, b' ' | b'\n' | b'\t')
}

// From `at` on, behind whitespace.
pub fn past_blanks(draft: &[u8], at: usize) -> usize
    ensures { result ≡ at + blanks (drop at draft.now) }
{
    if draft.len() <= at {
        return at;
    }
    past_bytes(draft, at, draft.len(), white)
}
