// From characters to tokens: Shastina Specification, section 3, and document 01, "From characters to tokens".

#![tactic(auto)]

ghost use Rattle.std.specs.Prelude.{◌≡◌, ℕ, false, Err, IfOk, ◌+◌, ◌-◌, ◌<◌, ◌≤◌, length, get_or};
ghost use Rattle.chars.specs.Limits.{limits};
ghost use Rattle.chars.specs.Character.{seen, Clean as CleanAs};
ghost use Rattle.chars.specs.Refusal.{number_of};
ghost use Rattle.chars.specs.Stream.{stream_at};
ghost use Rattle.tokens.specs.Tokens.{between, bar as bar_at, word as word_at, string as string_of, tokens, first, token_at};
ghost use Rattle.tokens.specs.Tokens.{opens, follows, Refused as RefusedAs};
ghost use Rattle.tokens.specs.Runs.{class_of, past_blanks, past_comment, past_all, refusal_of};
ghost use Rattle.tokens.specs.Told.{told_opened, told_whole, told_token, NoData, NoDataIn, CleanAt};
ghost use Rattle.tokens.specs.declared.Sort.TheVariants.{Simple};

mod byte;
pub mod number;
mod space;
mod string_data;

use byte::{Class, class_at, run};
use chars::refusal::{Refusal, Refused};
use chars::{Clean, limits};
use space::{blanks, comment, skip};
use string_data::{closes, level_after, odd_after};

// The sorts of whole tokens.
#[derive(Clone, Copy, Debug, PartialEq, Eq)]
pub enum Sort {
    Simple,
    Quoted,
    Curly,
}

// A token that is whole, `|;` apart. A place is a token's first byte.
#[derive(Clone, Copy, Debug, PartialEq, Eq)]
pub struct Whole {
    pub sort: Sort,
    pub place: usize,
    // The byte after it.
    pub after: usize,
    // How many bytes its prefix has; of a simple token, how many it has itself.
    pub prefix: usize,
    // A string's data: its first byte in the draft, and how many bytes it has once it is clean. A simple token has 0 in both.
    pub from: usize,
    pub length: usize,
}

// What the characters from a place of a draft on come to first.
#[derive(Clone, Copy, Debug, PartialEq, Eq)]
pub enum Token {
    Whole(Whole),
    // The last token, `|;`: its first byte, and the byte after it.
    Last { place: usize, after: usize },
}

// A simple token.
fn simply(place: usize, after: usize, length: usize) -> Whole
    ensures { result ≡ record { sort = Simple; place = place; after = after; prefix = length; from = 0; length = 0 } }
{
    Whole {
        sort: Sort::Simple,
        place,
        after,
        prefix: length,
        from: 0,
        length: 0,
    }
}

// A string that has been opened: its first byte, the bytes of its prefix, and its data's first byte.
#[derive(Clone, Copy)]
struct Begun {
    sort: Sort,
    place: usize,
    prefix: usize,
    from: usize,
}

impl Begun {
    // It, once it is closed, with `length` clean bytes of data.
    fn closed(self, after: usize, length: usize) -> Whole
        ensures { result ≡ record {
          sort = self.sort;
          place = self.place;
          after = after;
          prefix = self.prefix;
          from = self.from;
          length = length;
        } }
    {
        Whole {
            sort: self.sort,
            place: self.place,
            after,
            prefix: self.prefix,
            from: self.from,
            length,
        }
    }
}

// The character at a place; where the draft has ended, it is refused at its length.
fn clean_at(draft: &[u8], at: usize) -> Result<Clean, Refused>
    ensures { CleanAt draft.now at result }
{
    chars::character_at(draft, at)?.ok_or(Refusal::DraftEnds.at(draft.len()))
}

// What comes of a character that is none: cleaning's refusal, or at the draft's length that it ends.
fn refusal(answer: Result<Option<Clean>, Refused>, length: usize) -> Refused
    ensures { ((number after : ℕ) → seen answer ≡ CleanAs number after → ⊥)
        → refusal_of length (seen answer) ≡ RefusedAs (number_of result.refusal) result.place }
{
    match answer {
        Err(refused) => refused,
        Ok(_) => Refusal::DraftEnds.at(length),
    }
}

// A string once it is opened. It asks for a character and not for `clean_at`: with a refusal and a character in one answer the compiler puts
// them together by bytes, and a processor has to wait for them at each character.
fn string(draft: &[u8], o: Begun) -> Result<Whole, Refused>
    requires { o.from ≤ length draft.now }
    ensures told { told_whole result ≡ first (tokens limits (string_of (told_opened o) 0 1 false) (stream_at draft.now o.from)) }
    ensures sort { IfOk result (λ w. w.sort ≡ o.sort) }
{
    let mut i = o.from;
    let mut n: usize = 0;
    let mut level: usize = 1;
    let mut odd = false;
    loop {
        let answer = chars::character_at(draft, i);
        let Ok(Some(clean)) = answer else {
            return Err(refusal(answer, draft.len()));
        };
        if closes(o.sort, level, odd, clean.number) {
            return Ok(o.closed(clean.after, n));
        }
        let size = chars::encoded_length(clean.number);
        if limits::STRING - n < size {
            return Err(Refusal::StringTooLong.at(i));
        }
        level = level_after(o.sort, level, odd, clean.number);
        odd = odd_after(odd, clean.number);
        n += size;
        i = clean.after;
    }
}

// A string that `open`, a quote or a curly, opens behind a prefix.
fn opened(
    draft: &[u8],
    open: u8,
    place: usize,
    prefix: usize,
    from: usize,
) -> Result<Whole, Refused>
    requires { from ≤ length draft.now }
    ensures told { told_whole result ≡ first (follows (opens «open» place prefix from) (λ state. tokens limits state
        (stream_at draft.now from))) }
    ensures plain { IfOk result NoData }
{
    let sort = if open == b'"' {
        Sort::Quoted
    } else {
        Sort::Curly
    };
    string(
        draft,
        Begun {
            sort,
            place,
            prefix,
            from,
        },
    )
}

// The end of a simple token or a prefix at a byte that is not US-ASCII, CR or nul: CR with LF ends a token, any other character is illegal.
fn foreign_end(draft: &[u8], begun: usize, i: usize) -> Result<Whole, Refused>
    requires { (begun ≤ i) × (i < length draft.now) × (class_of (get_or draft.now i 0) ≡ 0) }
    ensures told { told_whole result ≡ first (tokens limits (word_at begun (i - begun)) (stream_at draft.now i)) }
    ensures plain { IfOk result NoData }
{
    let c = clean_at(draft, i)?;
    if c.number == 0x0A {
        return Ok(simply(begun, i, i - begun));
    }
    Err(Refusal::IllegalCharacter.at(i))
}

// A simple token or a string with a prefix, whose first byte is at `begun`.
fn word(draft: &[u8], begun: usize) -> Result<Whole, Refused>
    requires { begun < length draft.now }
    ensures told { told_whole result ≡ first (tokens limits (word_at begun 1) (stream_at draft.now (begun + 1))) }
    ensures plain { IfOk result NoData }
{
    let end = draft.len().min(begun + 1 + (limits::TOKEN - 1));
    let i = run(draft, begun + 1, end, Class::Backslash, Class::Plain);
    if draft.len() <= i {
        return Err(Refusal::DraftEnds.at(draft.len()));
    }
    let b = draft[i];
    match class_at(draft, i) {
        Class::Foreign => foreign_end(draft, begun, i),
        Class::Opening => opened(draft, b, begun, i - begun, i + 1),
        Class::Illegal => Err(Refusal::IllegalCharacter.at(i)),
        Class::Backslash | Class::Plain => Err(Refusal::TokenTooLong.at(i)),
        _ => Ok(simply(begun, i, i - begun)),
    }
}

// A token that begins with a bar: with `;` right after it, it is the last token.
fn bar(draft: &[u8], at: usize) -> Result<Token, Refused>
    requires { at < length draft.now }
    ensures told { told_token result ≡ first (tokens limits (bar_at at) (stream_at draft.now (at + 1))) }
    ensures plain { IfOk result NoDataIn }
{
    let next = at + 1;
    if draft.len() <= next {
        return Err(Refusal::DraftEnds.at(draft.len()));
    }
    if draft[next] == b';' {
        return Ok(Token::Last {
            place: at,
            after: at + 2,
        });
    }
    word(draft, at).map(Token::Whole)
}

// What refuses a character that is no US-ASCII, where no token has begun: it is illegal, if cleaning gives it at all.
fn foreign_start(draft: &[u8], i: usize) -> Refused
    requires { (i < length draft.now) × (class_of (get_or draft.now i 0) ≡ 0)
        × (stream_at draft.now i ≡ past_all false (stream_at draft.now i)) }
    ensures { told_whole (Err result) ≡ first (tokens limits between (stream_at draft.now i)) }
{
    match clean_at(draft, i) {
        Ok(_) => Refusal::IllegalCharacter.at(i),
        Err(r) => r,
    }
}

// The token that begins at `i`, where neither whitespace nor a comment stands.
fn token_from(draft: &[u8], i: usize) -> Result<Token, Refused>
    requires { (i < length draft.now) × (stream_at draft.now i ≡ past_all false (stream_at draft.now i)) }
    ensures told { told_token result ≡ first (tokens limits between (stream_at draft.now i)) }
    ensures plain { IfOk result NoDataIn }
{
    let b = draft[i];
    if b == b'|' {
        return bar(draft, i);
    }
    match class_at(draft, i) {
        Class::Foreign => Err(foreign_start(draft, i)),
        Class::Opening => opened(draft, b, i, 0, i + 1).map(Token::Whole),
        Class::Illegal => Err(Refusal::IllegalCharacter.at(i)),
        Class::Backslash | Class::Plain => word(draft, i).map(Token::Whole),
        _ => Ok(Token::Whole(simply(i, i + 1, 1))),
    }
}

// The first token from a place on, for every draft and every place.
pub fn token_at(draft: &[u8], at: usize) -> Result<Token, Refused>
    ensures told { told_token result ≡ token_at limits draft.now at }
    ensures plain { IfOk result NoDataIn }
{
    if draft.len() <= at {
        return Err(Refusal::DraftEnds.at(draft.len()));
    }
    let i = skip(draft, at);
    if draft.len() <= i {
        return Err(Refusal::DraftEnds.at(draft.len()));
    }
    token_from(draft, i)
}

// The first place from a place on that is not whitespace, or the draft's length: a place past the draft is its end.
pub fn blank_end(draft: &[u8], at: usize) -> usize
    ensures { (stream_at draft.now result ≡ past_blanks (stream_at draft.now at))
        × (result ≤ length draft.now) }
{
    if draft.len() <= at {
        return draft.len();
    }
    blanks(draft, at)
}

// From a place on, inside a comment, the byte after the LF that ends it, or the place of what ends the draft's characters before: a place
// past the draft is its end.
pub fn comment_end(draft: &[u8], at: usize) -> usize
    ensures { (stream_at draft.now result ≡ past_comment (stream_at draft.now at))
        × (result ≤ length draft.now) × (at ≤ length draft.now → at ≤ result) }
{
    if draft.len() <= at {
        return draft.len();
    }
    comment(draft, at)
}
