// From bytes to characters: Shastina Specification, section 2, and document 01, "From bytes to characters".

#![tactic(auto)]

ghost use Rattle.std.specs.Prelude.{◌≡◌, ◌++◌, ◌+◌, ◌-◌, ◌*◌, ◌^◌, ◌<◌, ◌≤◌, length, take, drop, replicate};
ghost use Rattle.chars.specs.Choice.{same};
ghost use Rattle.chars.specs.Character.{continued as continued_by, lowest, highest, sequence, paired as paired_by, judged as judged_by};
ghost use Rattle.chars.specs.Character.{seen, seen_clean, seen_sequence};
ghost use Rattle.chars.specs.Character.{carriage, character_at, encoded, nearest, padded};
ghost use Rattle.chars.specs.Stream.{start as start_of};

pub mod limits;
pub mod refusal;

use refusal::{Refusal, Refused};

// A number by RFC 3629, surrogates let through, and the byte after its sequence. The byte after stands first, since it is as wide as the
// place that a malformed sequence is told by: where a narrower number shares that room, a processor has to wait for it.
#[derive(Clone, Copy)]
struct Sequence {
    after: usize,
    number: u32,
}

// A character after cleaning: its number, and the byte after the bytes that it took.
#[derive(Clone, Copy, Debug, PartialEq, Eq)]
pub struct Clean {
    pub number: u32,
    pub after: usize,
}

// `n` continuation bytes from `place` on, the first of them from `low` to `high`; or the first byte that is none.
#[tactic(auto, using(crate::proofs::Sequences::continuing))]
fn continued(
    draft: &[u8],
    place: usize,
    n: usize,
    low: u8,
    high: u8,
    number: u32,
) -> Result<Sequence, usize>
    requires { (128 ≤ low) × (high ≤ 191) × ((number + 1) * 64 ^ n ≤ 2 ^ 21) }
    ensures { seen_sequence result ≡ continued_by n low high number (drop place draft.now) place }
{
    let mut from = low;
    let mut to = high;
    let mut value = number;
    let Some(after) = place.checked_add(n) else {
        return Err(place);
    };
    for i in place..after {
        if draft.len() <= i || draft[i] < from || to < draft[i] {
            return Err(i);
        }
        value = value * 64 + u32::from(draft[i] - 128);
        from = 128;
        to = 191;
    }
    Ok(Sequence {
        after,
        number: value,
    })
}

// The lowest and the highest second byte behind a first byte of two or more.
#[tactic(auto, unfolding(crate::specs::Character::lowest))]
fn lowest_second(b: u8) -> u8
    ensures { (result ≡ lowest b) × (128 ≤ result) }
{
    match b {
        0xE0 => 0xA0,
        0xF0 => 0x90,
        _ => 0x80,
    }
}

#[tactic(auto, unfolding(crate::specs::Character::highest))]
fn highest_second(b: u8) -> u8
    ensures { (result ≡ highest b) × (result ≤ 191) }
{
    if b == 0xF4 { 0x8F } else { 0xBF }
}

// The sequence at a place, surrogates let through; or the first byte at which the bytes there can no longer be the start of one.
#[tactic(auto, using(crate::proofs::Sequences::sequences))]
fn sequence_at(draft: &[u8], at: usize) -> Result<Sequence, usize>
    ensures { seen_sequence result ≡ sequence (drop at draft.now) at }
{
    if draft.len() <= at {
        return Err(at);
    }
    let b = draft[at];
    let low = lowest_second(b);
    let high = highest_second(b);
    match b {
        0..=0x7F => Ok(Sequence {
            after: at + 1,
            number: u32::from(b),
        }),
        0xC2..=0xDF => continued(draft, at + 1, 1, low, high, u32::from(b - 0xC0)),
        0xE0..=0xEF => continued(draft, at + 1, 2, low, high, u32::from(b - 0xE0)),
        0xF0..=0xF4 => continued(draft, at + 1, 3, low, high, u32::from(b - 0xF0)),
        _ => Err(at),
    }
}

// A high surrogate at `at`, and what stands right behind its sequence.
#[tactic(auto, unfolding(crate::specs::Character::paired))]
fn paired(at: usize, number: u32, second: Result<Sequence, usize>) -> Result<Clean, Refused>
    requires { (0xD800 ≤ number) × (number ≤ 0xDBFF) }
    ensures { seen_clean result ≡ paired_by at number (seen_sequence second) }
{
    match second {
        Ok(low) if 0xDC00 <= low.number && low.number <= 0xDFFF => Ok(Clean {
            number: 0x10000 + (number - 0xD800) * 0x400 + (low.number - 0xDC00),
            after: low.after,
        }),
        _ => Err(Refusal::UnpairedSurrogate.at(at)),
    }
}

// The sequence at a place as a character: malformed where there is none, and a surrogate has to have its partner. It stays a call, so that
// `character_at` is put into its callers, and US-ASCII is told there.
#[inline(never)]
#[tactic(auto, using(crate::proofs::Extent::behind), unfolding(crate::specs::Character::judged))]
fn judged(draft: &[u8], at: usize) -> Result<Option<Clean>, Refused>
    ensures { seen result ≡ judged_by at (sequence (drop at draft.now) at) (drop at draft.now) }
{
    let Ok(Sequence { number, after }) = sequence_at(draft, at) else {
        return Err(Refusal::Malformed.at(at));
    };
    match number {
        0xD800..=0xDBFF => paired(at, number, sequence_at(draft, after)).map(Some),
        0xDC00..=0xDFFF => Err(Refusal::UnpairedSurrogate.at(at)),
        _ => Ok(Some(Clean { number, after })),
    }
}

// CR at a place: with LF behind it the pair is one LF, any other is refused.
#[tactic(auto, unfolding(crate::specs::Character::carriage))]
fn carriage_at(draft: &[u8], at: usize) -> Result<Clean, Refused>
    requires { at < length draft.now }
    ensures { seen_clean result ≡ carriage at (drop (at + 1) draft.now) }
{
    let next = at + 1;
    if next < draft.len() && draft[next] == 0x0A {
        return Ok(Clean {
            number: 0x0A,
            after: at + 2,
        });
    }
    Err(Refusal::CarriageReturn.at(at))
}

// The character at a place, for every draft and every place; none where the draft ends. US-ASCII is told at once: `judged` says the same of
// it.
#[tactic(auto, using(crate::proofs::Characters::characters))]
pub fn character_at(draft: &[u8], at: usize) -> Result<Option<Clean>, Refused>
    ensures { seen result ≡ character_at draft.now at }
{
    if draft.len() <= at {
        return Ok(None);
    }
    match draft[at] {
        0 => Err(Refusal::Nul.at(at)),
        0x0D => carriage_at(draft, at).map(Some),
        b if b < 0x80 => Ok(Some(Clean {
            number: u32::from(b),
            after: at + 1,
        })),
        _ => judged(draft, at),
    }
}

// A character re-encoded: one to four bytes of UTF-8, and zeros behind them. Document 01 names this form, bytes and a length by value.
#[derive(Clone, Copy)]
pub struct Encoded {
    pub bytes: [u8; 4],
    pub length: usize,
}

// A character re-encoded, by its number.
#[tactic(auto, using(crate::proofs::Extent::by_length), unfolding(crate::specs::Character::padded))]
fn coded(number: u32) -> Encoded
    requires { number < 0x110000 }
    ensures { (result.bytes ≡ padded (encoded number)) × (result.length ≡ length (encoded number)) }
{
    let last = (0x80 + number % 64) as u8;
    let third = (0x80 + number / 64 % 64) as u8;
    let second = (0x80 + number / 4096 % 64) as u8;
    let (bytes, length) = match number {
        0..=0x7F => ([number as u8, 0, 0, 0], 1),
        0x80..=0x7FF => ([(0xC0 + number / 64) as u8, last, 0, 0], 2),
        0x800..=0xFFFF => ([(0xE0 + number / 4096) as u8, third, last, 0], 3),
        _ => ([(0xF0 + number / 262144) as u8, second, third, last], 4),
    };
    Encoded { bytes, length }
}

// The same for every number: one above 10FFFF is no character's, and is re-encoded as 10FFFF, the last.
#[tactic(auto, using(crate::proofs::Extent::nearest_least))]
pub fn encode(number: u32) -> Encoded
    ensures { (result.bytes ≡ padded (encoded (nearest number))) × (result.length ≡ length (encoded (nearest number))) }
{
    coded(number.min(0x10FFFF))
}

// How many bytes a number is re-encoded in.
#[tactic(auto, using(crate::proofs::Extent::by_length))]
pub fn encoded_length(number: u32) -> usize
    ensures { result ≡ length (encoded number) }
{
    match number {
        0..=0x7F => 1,
        0x80..=0x7FF => 2,
        0x800..=0xFFFF => 3,
        _ => 4,
    }
}

// Whether a draft begins with a fixed string.
#[tactic(auto, using(crate::proofs::Same::pairwise))]
pub fn begins_with(draft: &[u8], mark: &[u8]) -> bool
    ensures { result ≡ same (take (length mark.now) draft.now) mark.now }
{
    draft.starts_with(mark)
}

// Where a draft's text begins: a byte order mark at its start is lost, once.
#[tactic(auto, unfolding(crate::specs::Stream::start))]
pub fn start(draft: &[u8]) -> usize
    ensures { result ≡ start_of draft.now }
{
    if begins_with(draft, b"\xEF\xBB\xBF") {
        3
    } else {
        0
    }
}
