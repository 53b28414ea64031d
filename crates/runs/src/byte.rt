// Sorts of bytes, as Shastina Specification, section 3.1, lists them.
ghost use Rattle.std.specs.Prelude.{◌≡◌, true, false, ℕ, ◌+◌, ◌<◌, ◌≤◌, eqb, length, get_or};
ghost use Rattle.chars.specs.Character.{character_at};
ghost use Rattle.chars.specs.Character.{Clean};
ghost use Rattle.tokens.specs.Sorts.{visible as visible_by, exclusive as exclusive_by, inclusive as inclusive_by};
ghost use Rattle.runs.specs.Bytes.{begins_of, ends_of, goes_on, unlisted as unlisted_by};
ghost use Rattle.runs.specs.Codes.{begins_code, ends_code};

use crate::blank::white;
use crate::sorts::{Begins, Ends};

// Visible US-ASCII.
fn visible(b: u8) -> bool
    ensures { result ≡ visible_by b }
{
    0x21 <= b && b < 0x7F
}

// Exclusive characters end a token and are left out of it.
fn exclusive(b: u8) -> bool
    ensures { result ≡ exclusive_by b }
{
    matches!(
        b,
        b'\t' | b' ' | b'\n' | b'(' | b')' | b'[' | b']' | b',' | b'%' | b';' | b'#' | b'}'
    )
}

// Inclusive characters end a token and are part of it.
fn inclusive(b: u8) -> bool
    ensures { result ≡ inclusive_by b }
{
    matches!(b, b'"' | b'{')
}

// The characters that end a word, those below `@` and those from there on: a bit for each. No word begins with one of these or with `|`.
const BELOW: u64 = (1u64 << b'"')
    | (1u64 << b'#')
    | (1u64 << b'%')
    | (1u64 << b'(')
    | (1u64 << b')')
    | (1u64 << b',')
    | (1u64 << b';');

const FROM: u64 = (1u64 << (b'[' - b'@'))
    | (1u64 << (b']' - b'@'))
    | (1u64 << (b'{' - b'@'))
    | (1u64 << (b'}' - b'@'));

const BAR: u64 = 1u64 << (b'|' - b'@');

// Whether a byte is visible and not listed, below `@` in one list and from there on in another. It is told by its bit, since a processor
// could not guess comparisons: words are made of letters, digits and signs as it comes.
fn unlisted(b: u8, below: u64, from: u64) -> bool
    ensures { result ≡ unlisted_by below from b }
{
    let listed = if b'@' <= b { from } else { below };
    visible(b) && (listed >> (b & 0x3F)) & 1 == 0
}

// Whether a byte begins a word and nothing else.
fn begins_word(b: u8) -> bool
    ensures { result ≡ eqb (begins_of b) 6 }
{
    unlisted(b, BELOW, FROM | BAR)
}

// Whether a byte goes on with a word.
pub fn goes_on(b: u8) -> bool
    ensures { result ≡ goes_on b }
{
    unlisted(b, BELOW, FROM)
}

// What a byte begins, of those below `-` that begin no word. `"` is told by a range, since of one equality more the compiler would make a
// jump by a table.
fn low(b: u8) -> Begins
    requires { (b < 0x2D) × (eqb (begins_of b) 6 ≡ false) }
    ensures { begins_code result ≡ begins_of b }
{
    if b'#' < b {
        return Begins::Atomic;
    }
    if b == b'#' {
        return Begins::Comment;
    }
    // Of `!` and `"`, `!` begins a word.
    if b' ' < b {
        return Begins::Opening;
    }
    if white(b) {
        return Begins::Whitespace;
    }
    Begins::Nothing
}

// The same of those from `{` on.
fn high(b: u8) -> Begins
    requires { (0x7B ≤ b) × (eqb (begins_of b) 6 ≡ false) }
    ensures { begins_code result ≡ begins_of b }
{
    match b {
        b'{' => Begins::Opening,
        b'|' => Begins::Bar,
        b'}' => Begins::RightCurly,
        _ => Begins::Nothing,
    }
}

// What a byte begins where no token has begun. Comparisons stand for a `match`, of which the compiler would make a jump by a table, dearer
// than any of them.
pub fn begins(b: u8) -> Begins
    ensures { begins_code result ≡ begins_of b }
{
    if begins_word(b) {
        return Begins::Word;
    }
    if b < b'-' {
        return low(b);
    }
    if b < b'{' {
        return Begins::Atomic;
    }
    high(b)
}

// What a byte is behind a token's first. Most tokens are ended by SP or LF.
pub fn ends(b: u8) -> Ends
    ensures { ends_code result ≡ ends_of b }
{
    if b == b' ' || b == b'\n' {
        return Ends::Exclusive;
    }
    if goes_on(b) {
        return Ends::GoesOn;
    }
    if exclusive(b) {
        return Ends::Exclusive;
    }
    if inclusive(b) {
        return Ends::Inclusive;
    }
    Ends::Illegal
}

// Whether CR at a place has LF right behind it, and so is one LF.
pub fn is_line(draft: &[u8], at: usize) -> bool
    requires { (at < length draft.now) × (get_or draft.now at 0 ≡ 0x0D) }
    ensures { (result ≡ true → (at + 2 ≤ length draft.now) × (character_at draft.now at ≡ Clean 0x0A (at + 2)))
        × (result ≡ false → (number after : ℕ) → character_at draft.now at ≡ Clean number after → ⊥) }
{
    let next = at + 1;
    next < draft.len() && draft[next] == b'\n'
}
