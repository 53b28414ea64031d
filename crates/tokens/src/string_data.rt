// What a character of string data does (Shastina Specification, section 3): whether it closes the string, and the nesting level and
// backslashes behind it.
ghost use Rattle.std.specs.Prelude.{◌≡◌, not, ◌&&◌, eqb, ◌≤◌, if◌then◌else◌};
ghost use Rattle.tokens.specs.Tokens.{nested, up as up_by, down as down_by};
ghost use Rattle.tokens.specs.Told.{told_sort};

use crate::Sort;

// Whether a character closes a string: behind no odd run of backslashes, at level 1.
pub fn closes(sort: Sort, level: usize, odd: bool, number: u32) -> bool
    ensures { result ≡ (not odd && down_by (told_sort sort) number && eqb level 1) }
{
    !odd && down(sort, number) && level == 1
}

// Whether a character takes the level down: `"` in a quoted string, `}` in a curly one.
#[tactic(auto, unfolding(crate::specs::Tokens::down))]
fn down(sort: Sort, number: u32) -> bool
    ensures { result ≡ down_by (told_sort sort) number }
{
    match sort {
        Sort::Simple => false,
        Sort::Quoted => number == u32::from(b'"'),
        Sort::Curly => number == u32::from(b'}'),
    }
}

// Whether a character takes the level up: `{` in a curly string.
#[tactic(auto, unfolding(crate::specs::Tokens::up))]
fn up(sort: Sort, number: u32) -> bool
    ensures { result ≡ up_by (told_sort sort) number }
{
    sort == Sort::Curly && number == u32::from(b'{')
}

// The nesting level behind a character of string data.
#[tactic(auto, unfolding(crate::specs::Tokens::nested))]
pub fn level_after(sort: Sort, level: usize, odd: bool, number: u32) -> usize
    requires { (1 ≤ level) × (level ≤ 4097) }
    ensures { result ≡ (if odd then level else nested (told_sort sort) level number) }
{
    if odd {
        level
    } else if up(sort, number) {
        level + 1
    } else if down(sort, number) {
        level - 1
    } else {
        level
    }
}

// Whether an odd run of backslashes stands right before what follows a character of string data.
pub fn odd_after(odd: bool, number: u32) -> bool
    ensures { result ≡ (not odd && eqb number 0x5C) }
{
    !odd && number == u32::from(b'\\')
}
