// Tokens with text: words and strings, and in a metacommand every token but % and ; (Shastina Specification, sections 5.1 and 5.4 to 5.7).

#![tactic(auto)]

ghost use Rattle.std.specs.Prelude.{◌≡◌, true, List, [], ◌∷◌, ℕ, ◌+◌, ◌-◌, ◌/◌, ◌<◌, ◌≤◌, ◌^◌, get_or};
ghost use Rattle.std.specs.Int.Bits.{bit_and};
ghost use Rattle.chars.specs.Limits.{limits as base};
ghost use Rattle.chars.specs.Stream.{stream_at, clean};
ghost use Rattle.holding.specs.Kind.{kind_code};
ghost use Rattle.holding.specs.Text.{unchanged};
ghost use Rattle.scan.specs.Told.{sort_code};
ghost use Rattle.entities.specs.Making.{handled};
ghost use Rattle.entities.specs.Judging.{word_kind, text_kind, cut_of, cut_from, cut_length};
ghost use Rattle.entities.specs.Stepping.{Contents, Ready, room_left, reader_of, agrees, took, judged_as, closing_as, worded, commanded, Roomed};
ghost use Rattle.texts.specs.Held.{Held};

use chars::limits;
use chars::refusal::Refusal;
use entities::brought::begin_group;
use entities::state::{Mode, State};
use holding::rows::{Kind, Row};
use holding::text::{as_it_stands, fill, word_as_it_stands};
use tokens::{Sort, Whole};

// Which bytes begin a number, and what the kind of a word is less than an operation's, 16, by its first byte: it is less by 1, by 2 and by 4
// where that byte is in the list, and a number is in all of them. Each list has a bit for every byte from `!` on.
const NUMBERS: u64 = (1u64 << (b'+' - b'!'))
    | (1u64 << (b'-' - b'!'))
    | (0b1111111111u64 << (b'0' - b'!'));

const ONE: u64 = NUMBERS | (1u64 << (b':' - b'!')) | (1u64 << (b'@' - b'!'));

const TWO: u64 = NUMBERS | (1u64 << (b'=' - b'!')) | (1u64 << (b'@' - b'!'));

const FOUR: u64 = NUMBERS | (1u64 << (b'?' - b'!'));

// 1 where the byte that stands `k` behind `!` is in a list, and else 0.
fn listed(list: u64, k: u8) -> u64
    requires { k < 64 }
    ensures { (result ≡ bit_and (list / 2 ^ k) 1) × (result ≤ 1) }
{
    (list >> k) & 1
}

// The kinds of words by how much less they are than an operation's. No byte is less by 5 or 6.
const KINDS: [Kind; 8] = [
    Kind::Operation,
    Kind::Put,
    Kind::Get,
    Kind::DefineConstant,
    Kind::DefineVariable,
    Kind::Number,
    Kind::Number,
    Kind::Number,
];

// The kind of a word by its first byte, one from `!` to `` ` ``. It is told by bits, since a processor could not guess comparisons.
fn listed_kind(c: u8) -> Kind
    requires { (0x21 ≤ c) × (c ≤ 0x60) }
    ensures { kind_code result ≡ word_kind c }
{
    let k = c - b'!';
    let less = listed(ONE, k) + 2 * listed(TWO, k) + 4 * listed(FOUR, k);
    KINDS[less as usize]
}

// The kind of a word by its first byte: numbers, names by their sign, and else operations. Small letters, with which most words begin, are
// told first.
fn word_kind(c: u8) -> Kind
    ensures { kind_code result ≡ word_kind c }
{
    if b'`' < c {
        return Kind::Operation;
    }
    if c < b':' {
        return number_kind(c);
    }
    listed_kind(c)
}

// The same of a byte below `:`: + - and digits begin a number.
fn number_kind(c: u8) -> Kind
    requires { c < 0x3A }
    ensures { kind_code result ≡ word_kind c }
{
    if c < b'!' {
        return Kind::Operation;
    }
    listed_kind(c)
}

// The kind of a token by its sort, and of a word by its first byte.
#[tactic(auto, unfolding(entities::specs::Judging::text_kind, holding::specs::Kind::kind_code))]
fn kind(sort: Sort, c: u8, metacommand: bool) -> Kind
    ensures { kind_code result ≡ text_kind (sort_code sort) c metacommand }
{
    if metacommand {
        return match sort {
            Sort::Simple => Kind::MetacommandToken,
            Sort::Quoted => Kind::MetacommandQuoted,
            Sort::Curly => Kind::MetacommandCurly,
        };
    }
    match sort {
        Sort::Simple => word_kind(c),
        Sort::Quoted => Kind::QuotedString,
        Sort::Curly => Kind::CurlyString,
    }
}

// How many bytes of a token's text an entity of that kind leaves out: the sign of a name.
fn sign(kind: Kind) -> usize
    ensures { ((place prefix : ℕ) → (cut_from (cut_of (kind_code kind)) place ≡ place + result)
        × (cut_length (cut_of (kind_code kind)) prefix ≡ prefix - result)) × (result ≤ 1) }
{
    match kind {
        Kind::DefineVariable | Kind::DefineConstant | Kind::Get | Kind::Put => 1,
        _ => 0,
    }
}

// Before a token with text and data of `size` bytes is written: 17 for the begin group that it brings, 18 where its entity or the group
// does not fit, 19 where its bytes do not; else the group is written. The buffers go one by one, here and in `reading`: `entities` takes
// two of the three, and what holds after a call is said of each.
fn room(
    list: &mut [u32],
    text: &[u8],
    groups: &mut [u16],
    s: State,
    place: usize,
    size: usize,
) -> Result<State, Refusal>
    requires { (place < 16384) × Ready s list.old text.now groups.old place }
    ensures { Roomed s list.old text.now groups.old place size result list.new
        groups.new }
{
    let numbers = list.len() - 6 * s.entities;
    let bytes = text.len() - s.text;
    if s.mode == Mode::Bracket {
        if limits::GROUPS <= s.depth {
            return Err(Refusal::TooManyGroups);
        }
        if numbers < 12 {
            return Err(Refusal::ListFull);
        }
        if bytes < size {
            return Err(Refusal::TextFull);
        }
        return Ok(begin_group(list, groups, s, place));
    }
    if numbers < 6 {
        return Err(Refusal::ListFull);
    }
    if bytes < size {
        return Err(Refusal::TextFull);
    }
    Ok(s)
}

// A token's row, behind the begin group that it brings, and the state behind the token. Its text and data are still to be written.
fn held(
    list: &mut [u32],
    text: &[u8],
    groups: &mut [u16],
    s: State,
    row: Row,
) -> Result<State, Refusal>
    requires { (row.place < 16384) × (row.text_len ≤ 4096) × (row.data_len ≤ 4096) × Ready s list.old text.now groups.old row.place }
    ensures { Held s list.old text.now groups.old row result list.new groups.new }
{
    let size = row.text_len as usize + row.data_len as usize;
    let inner = room(list, text, groups, s, row.place as usize, size)?;
    row.write(list, inner.entities * 6);
    Ok(State {
        entities: inner.entities + 1,
        text: s.text + size,
        ..inner
    })
}

// A token with text, a string or any other that is no word.
pub fn take(
    draft: &[u8],
    list: &mut [u32],
    text: &mut [u8],
    groups: &mut [u16],
    s: State,
    w: Whole,
) -> Result<State, Refusal>
    requires { (sort_code w.sort ≡ 0 → worded (commanded s.mode) (get_or draft.now w.place 0) ≡ true)
        × (sort_code w.sort ≡ 0 → (1 ≤ w.prefix) × (w.length ≡ 0)) × (w.place < 16384) × (w.prefix ≤ 4096) × (w.length ≤ 4096)
        × (w.from < w.after) × Contents draft.now w.place w.prefix w.from w.length
        × Ready s list.old text.old groups.old w.place
        × unchanged draft.now w.from w.length (w.after - w.from - 1) }
    ensures { agrees (handled base (room_left s list.old text.old) (reader_of s groups.old)
        (closing_as (sort_code w.sort) (clean w.prefix (stream_at draft.now w.place))) w.place
        (λ q. judged_as (sort_code w.sort) q w.place (clean w.prefix (stream_at draft.now w.place))
        (clean w.length (stream_at draft.now w.from)))) (took s result) s list.old text.old
        list.new text.new groups.new w.place }
{
    let k = kind(w.sort, draft[w.place], s.mode == Mode::Metacommand);
    let bytes = &draft[w.place + sign(k)..w.place + w.prefix];
    let row = Row {
        kind: k.code(),
        place: w.place as u32,
        text_at: s.text as u32,
        text_len: bytes.len() as u32,
        data_len: w.length as u32,
        count: 0,
    };
    let state = held(list, text, groups, s, row)?;
    as_it_stands(bytes, text, s.text);
    if w.length != 0 {
        let raw = w.after - w.from - 1;
        fill(draft, w.from, w.length, raw, text, s.text + bytes.len());
    }
    Ok(state)
}

// A word of `length` bytes whose first is `c`. Beside `take`, since words and strings taken by one function are slower (docs/COST.md).
pub fn take_word(
    draft: &[u8],
    list: &mut [u32],
    text: &mut [u8],
    groups: &mut [u16],
    s: State,
    c: u8,
    place: usize,
    length: usize,
) -> Result<State, Refusal>
    requires { (c ≡ get_or draft.now place 0) × (worded (commanded s.mode) c ≡ true) × (1 ≤ length) × (length ≤ 4096) × (place < 16384)
        × Contents draft.now place length 0 0 × Ready s list.old text.old groups.old place }
    ensures { agrees (handled base (room_left s list.old text.old) (reader_of s groups.old)
        (closing_as 0 (clean length (stream_at draft.now place))) place
        (λ q. judged_as 0 q place (clean length (stream_at draft.now place)) (clean 0 (stream_at draft.now 0))))
        (took s result) s list.old text.old list.new text.new groups.new place }
{
    let k = kind(Sort::Simple, c, s.mode == Mode::Metacommand);
    let bytes = &draft[place + sign(k)..place + length];
    let row = Row {
        kind: k.code(),
        place: place as u32,
        text_at: s.text as u32,
        text_len: bytes.len() as u32,
        data_len: 0,
        count: 0,
    };
    let state = held(list, text, groups, s, row)?;
    word_as_it_stands(bytes, text, s.text);
    Ok(state)
}
