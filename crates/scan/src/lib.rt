// What stands at a place of a draft, told by its first byte, a straight way for each sort: words, strings, comments and `|;`. Eight bytes
// are looked at at once where they can be. What these ways do not know, refusals among it, is left to `tokens`.
// A draft and a place stay two parameters, as in `runs` and `wide`, since all that is promised is about places of the whole draft.

#![tactic(auto)]

ghost use Rattle.std.specs.Prelude.{◌≡◌, ◌+◌, ◌-◌, ◌<◌, ◌≤◌, Ok, None, eqb, ltb, length, get_or};
ghost use Rattle.runs.specs.Bytes.{begins_of, begins_at};
ghost use Rattle.runs.specs.Codes.{begins_code};
ghost use Rattle.scan.specs.Found.{Finds};
ghost use Rattle.scan.specs.Told.{sort_code, told_piece};
ghost use Rattle.scan.specs.Opens.{Known, Stands, Opens, Goes, Ended as EndedBy};

mod comment;
mod string;
mod word;

use chars::refusal::Refused;
use comment::comment_end;
use runs::byte::is_line;
use runs::sorts::Begins;
use string::{Data, string_end};
use tokens::{Sort, Token, Whole};
use word::word_end;

// What stands at a place.
#[derive(Clone, Copy, Debug, PartialEq, Eq)]
pub enum Piece {
    // Whitespace or a comment: the byte after it.
    Blank { after: usize },
    Token(Token),
}

// What a token's own bytes are, by the character behind them.
#[derive(Clone, Copy, Debug, PartialEq, Eq)]
pub enum How {
    // A simple token, which it ends.
    Simple = 1,
    // The prefix of a string, which it opens.
    Prefix = 2,
}

// Where a token's own bytes end, and what they are.
#[derive(Clone, Copy, Debug, PartialEq, Eq)]
pub struct Ended {
    pub at: usize,
    pub how: How,
}

// A token of one byte.
fn alone(at: usize) -> Piece
    requires { at < 0xFFFFFFFFFFFFFFFF }
    ensures { told_piece (Ok result) ≡ record { sort = 0; place = at; after = at + 1; prefix = 1; from = 0; bytes = 0; number = 0 } }
{
    Piece::Token(Token::Whole(Whole {
        sort: Sort::Simple,
        place: at,
        after: at + 1,
        prefix: 1,
        from: 0,
        length: 0,
    }))
}

// A string with the prefix from `at` up to `i`, where it is opened.
fn string_with(sort: Sort, at: usize, i: usize, known: Data) -> Piece
    requires { (at ≤ i) × (i < 0xFFFFFFFFFFFFFFFF) }
    ensures { told_piece (Ok result) ≡ record {
      sort = sort_code sort;
      place = at;
      after = known.after;
      prefix = i - at;
      from = i + 1;
      bytes = known.length;
      number = 0;
    } }
{
    Piece::Token(Token::Whole(Whole {
        sort,
        place: at,
        after: known.after,
        prefix: i - at,
        from: i + 1,
        length: known.length,
    }))
}

// A string behind the prefix from `at` up to `i`, where it is opened. Each sort asks for its end by itself, so that the loop that finds it
// stays a call, and the loop of reading stays short.
fn string_piece(draft: &[u8], at: usize, i: usize) -> Option<Piece>
    requires { (at ≤ i) × (i < length draft.now) × Opens draft.now at i }
    ensures { Known draft.now at result }
{
    if draft[i] == b'{' {
        let data = string_end(&draft[..], i + 1, true)?;
        return Some(string_with(Sort::Curly, at, i, data));
    }
    let data = string_end(&draft[..], i + 1, false)?;
    Some(string_with(Sort::Quoted, at, i, data))
}

// Whether `|` at a place begins the last token. `is_line` of `runs` looks at the next byte too, but what it tells is a character.
fn is_last(draft: &[u8], at: usize) -> bool
    requires { at < length draft.now }
    ensures { result ≡ eqb (get_or draft.now (at + 1) 0) 0x3B }
{
    let next = at + 1;
    next < draft.len() && draft[next] == b';'
}

// CR LF where it stands for whitespace.
fn line_piece(draft: &[u8], at: usize) -> Option<Piece>
    requires { (at < length draft.now) × (begins_of (get_or draft.now at 0) ≡ 0) }
    ensures { Known draft.now at result × (result ≡ None → Stands draft.now at) }
{
    if draft[at] == b'\r' && is_line(draft, at) {
        return Some(Piece::Blank { after: at + 2 });
    }
    None
}

// A comment. It is passed over alone, whatever stands behind it.
fn comment_piece(draft: &[u8], at: usize) -> Piece
    requires { (at < length draft.now) × (get_or draft.now at 0 ≡ 0x23) }
    ensures { Finds draft.now at (told_piece (Ok result)) }
{
    match comment_end(draft, at + 1) {
        Some(after) => Piece::Blank { after },
        None => Piece::Blank {
            after: tokens::comment_end(&draft[..], at + 1),
        },
    }
}

// A simple token that CR LF ends at `i`.
fn line_ended(draft: &[u8], at: usize, i: usize) -> Option<Ended>
    requires { (at < i) × (i < length draft.now) × Goes draft.now at i }
    ensures { EndedBy draft.now at result }
{
    if draft[i] == b'\r' && is_line(draft, i) {
        return Some(Ended {
            at: i,
            how: How::Simple,
        });
    }
    None
}

// Where a word or a prefix ends, if that is known.
fn own_end(draft: &[u8], at: usize) -> Option<Ended>
    requires { (at < length draft.now) × (6 ≡ begins_at draft.now at) }
    ensures { EndedBy draft.now at result }
{
    let stop = word_end(draft, at)?;
    match stop.how {
        Some(how) => Some(Ended { at: stop.at, how }),
        None => line_ended(draft, at, stop.at),
    }
}

// Where a token's own bytes end, if that is known: a string without a prefix has none, and a word or a prefix has some.
pub fn worded(draft: &[u8], at: usize, begins: Begins) -> Option<Ended>
    requires { (at < length draft.now) × (begins_code begins ≡ begins_at draft.now at) }
    ensures { EndedBy draft.now at result }
{
    match begins {
        Begins::Opening => Some(Ended {
            at,
            how: How::Prefix,
        }),
        Begins::Word => own_end(draft, at),
        _ => None,
    }
}

// A string, by the end of its prefix.
fn word_piece(draft: &[u8], at: usize, e: Option<Ended>) -> Option<Piece>
    requires { EndedBy draft.now at e }
    ensures { Known draft.now at result }
{
    let e = e?;
    match e.how {
        How::Prefix => string_piece(draft, at, e.at),
        How::Simple => None,
    }
}

// What stands at a place begins so: as its byte does, but that `|` begins a word where no `;` stands right behind it.
pub fn begins_at(draft: &[u8], at: usize) -> Begins
    requires { at < length draft.now }
    ensures { begins_code result ≡ begins_at draft.now at }
{
    let begins = runs::byte::begins(draft[at]);
    match begins {
        Begins::Bar => {
            if is_last(draft, at) {
                begins
            } else {
                Begins::Word
            }
        }
        _ => begins,
    }
}

// Whether no token begins so. A test by itself, since of all in one `match` the compiler would make a jump by a table.
fn no_token(begins: Begins) -> bool
    ensures { result ≡ ltb (begins_code begins) 3 }
{
    matches!(
        begins,
        Begins::Nothing | Begins::Whitespace | Begins::Comment
    )
}

// Whitespace or a comment.
fn blank_piece(draft: &[u8], at: usize, begins: Begins) -> Option<Piece>
    requires { (at < length draft.now) × (begins_code begins ≡ begins_at draft.now at) × (begins_code begins < 3) }
    ensures { Known draft.now at result × (result ≡ None → Stands draft.now at) }
{
    match begins {
        Begins::Whitespace => Some(Piece::Blank { after: at + 1 }),
        Begins::Comment => Some(comment_piece(draft, at)),
        _ => line_piece(draft, at),
    }
}

// What stands at a place, as far as its first byte's straight way knows.
fn straight(draft: &[u8], at: usize, begins: Begins, e: Option<Ended>) -> Option<Piece>
    requires { (at < length draft.now) × (begins_code begins ≡ begins_at draft.now at) × EndedBy draft.now at e }
    ensures { Known draft.now at result × (result ≡ None → Stands draft.now at) }
{
    if no_token(begins) {
        return blank_piece(draft, at, begins);
    }
    match begins {
        Begins::Bar => Some(Piece::Token(Token::Last {
            place: at,
            after: at + 2,
        })),
        Begins::Atomic | Begins::RightCurly => Some(alone(at)),
        _ => word_piece(draft, at, e),
    }
}

// What stands at a place that begins so, and whose own bytes end there as far as that is known.
pub fn found(draft: &[u8], at: usize, begins: Begins, e: Option<Ended>) -> Result<Piece, Refused>
    requires { (at < length draft.now) × (begins_code begins ≡ begins_at draft.now at) × EndedBy draft.now at e }
    ensures { Finds draft.now at (told_piece result) }
{
    match straight(draft, at, begins, e) {
        Some(p) => Ok(p),
        None => tokens::token_at(&draft[..], at).map(Piece::Token),
    }
}
