// Whitespace and comments (Shastina Specification, section 3): what stands between tokens and is no part of any.
ghost use Rattle.std.specs.Prelude.{◌≡◌, false, ◌≤◌, length};
ghost use Rattle.chars.specs.Stream.{stream_at};
ghost use Rattle.tokens.specs.Runs.{past_blanks, past_comment, past_all};

use crate::byte::{Class, run};
use crate::clean_at;
use chars::Clean;

// The first place from `at` on that is not whitespace.
pub fn blanks(draft: &[u8], at: usize) -> usize
    requires { at ≤ length draft.now }
    ensures { (stream_at draft.now result ≡ past_blanks (stream_at draft.now at)) × (at ≤ result)
        × (result ≤ length draft.now) }
{
    let mut i = run(draft, at, draft.len(), Class::Blank, Class::Line);
    while i < draft.len() {
        if draft[i] != 0x0D {
            return i;
        }
        let Ok(Clean { after, .. }) = clean_at(draft, i) else {
            return i;
        };
        i = run(draft, after, draft.len(), Class::Blank, Class::Line);
    }
    i
}

// The byte after the LF that ends a comment, or the place of what ends the draft's characters before.
pub fn comment(draft: &[u8], at: usize) -> usize
    requires { at ≤ length draft.now }
    ensures { (stream_at draft.now result ≡ past_comment (stream_at draft.now at)) × (at ≤ result)
        × (result ≤ length draft.now) }
{
    let mut i = at;
    loop {
        let Ok(Clean { number, after }) = clean_at(draft, i) else {
            return i;
        };
        if number == 0x0A {
            return after;
        }
        i = after;
    }
}

// The first place from `at` on that is neither whitespace nor part of a comment.
pub fn skip(draft: &[u8], at: usize) -> usize
    requires { at ≤ length draft.now }
    ensures { (stream_at draft.now result ≡ past_all false (stream_at draft.now at))
        × (result ≤ length draft.now) }
{
    let mut i = blanks(draft, at);
    while i < draft.len() {
        if draft[i] != b'#' {
            return i;
        }
        let behind = comment(draft, i + 1);
        i = blanks(draft, behind);
    }
    i
}
