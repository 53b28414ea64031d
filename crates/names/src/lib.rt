// An index of names by their bytes (specs/Index.antt): what the operations of a table and the names of a draft are found through, in a time
// that does not grow with how many there are.

#![tactic(auto)]

ghost use Rattle.std.specs.Prelude.{◌≡◌, ℕ, ◌+◌, ◌<◌, ◌≤◌, length, take, drop, get_or};
ghost use Rattle.chars.specs.Choice.{same as same_as};
ghost use Rattle.names.specs.Marks.{number_of, few_of, first_of, last_of, stir, blocks, mark_of};
ghost use Rattle.names.specs.Index.{Indexed, key_of, position, found_of, entered};

use tokens::number::four;

// What a name is found by (specs/Marks.antt).
#[derive(Clone, Copy, Debug, PartialEq, Eq)]
pub struct Mark {
    pub first: u32,
    pub last: u32,
    pub bucket: usize,
}

// The numbers of an index: a head for each bucket, and behind them so many for each entry.
pub const BUCKETS: usize = 512;

const ENTRIES: usize = 256;

pub const FIELDS: usize = 5;

const NUMBERS: usize = BUCKETS + ENTRIES * FIELDS;

// The array of an index. Its entries are linked in it by number, since there is no heap.
pub type Index = [u32; NUMBERS];

// Where an entry's numbers stand, from its first one on, which is where its name begins.
const LENGTH: usize = 1;

const BEFORE: usize = 2;

const FIRST: usize = 3;

const LAST: usize = 4;

// Four bytes of a name from a place on, as one number.
fn four_at(name: &[u8], at: usize) -> u32
    requires { at + 4 ≤ length name.now }
    ensures { result ≡ number_of (take 4 (drop at name.now)) }
{
    four(name, at) as u32
}

fn stirred(h: u32, w: u32) -> u32
    ensures { result ≡ stir h w }
{
    ((u64::from(h) + u64::from(w)) * 0x4F1BBCDD / 0x1000000 % 0x100000000) as u32
}

// Up to three bytes as one number.
fn few(name: &[u8]) -> u32
    requires { length name.now < 4 }
    ensures { result ≡ few_of name.now }
{
    let n = name.len();
    if n == 0 {
        return 0;
    }
    u32::from(name[0]) + u32::from(name[n / 2]) * 0x100 + u32::from(name[n - 1]) * 0x10000
}

fn first_of(name: &[u8]) -> u32
    ensures { result ≡ first_of name.now }
{
    if name.len() < 4 {
        return few(name);
    }
    four_at(name, 0)
}

fn last_of(name: &[u8]) -> u32
    ensures { result ≡ last_of name.now }
{
    if name.len() < 4 {
        return 0;
    }
    four_at(name, name.len() - 4)
}

// The bytes between the first four and the last ones stirred in. The last one to four bytes are left out, which exact chunks would not do.
fn between(name: &[u8], from: u32) -> u32
    ensures { result ≡ blocks from (drop 4 name.now) }
{
    let mut h = from;
    let mut i = 8;
    while i < name.len() {
        h = stirred(h, four_at(name, i - 4));
        i += 4;
    }
    h
}

// The mark of a name.
pub fn marked(name: &[u8]) -> Mark
    ensures { (result ≡ mark_of name.now) × (result.bucket < 512) }
{
    let first = first_of(name);
    let last = last_of(name);
    let low = u64::from(between(name, 0)) + u64::from(first);
    let high = u64::from(last) + (name.len() % 0x100000000) as u64;
    Mark {
        first,
        last,
        bucket: ((low * 0x2545F491 + high * 0x3C6EF373) / 0x1000000 % 512) as usize,
    }
}

// Whether an entry has the name whose mark is `m`.
fn has(keys: &[u8], index: &Index, count: usize, entry: usize, name: &[u8], m: Mark) -> bool
    requires { Indexed keys.now index.now count × (entry < count) × (m ≡ mark_of name.now) }
    ensures { result ≡ same_as name.now (key_of keys.now index.now entry) }
{
    let k = BUCKETS + entry * FIELDS;
    let n = name.len();
    if index[k + LENGTH] as usize != n {
        return false;
    }
    if index[k + FIRST] != m.first {
        return false;
    }
    if index[k + LAST] != m.last {
        return false;
    }
    if n <= 8 {
        return true;
    }
    let begin = index[k] as usize;
    &name[..] == &keys[begin..begin + n]
}

// The entry that a number of the index leads to: they are counted from 1 there, and 0 leads to none.
fn led(index: &Index, at: usize) -> Option<usize>
    requires { at < 1792 }
    ensures { found_of result ≡ get_or index.now at 0 }
{
    (index[at] as usize).checked_sub(1)
}

// Which of the first `count` entries has the name whose mark is `m`. The bytes, the array and the count have owners of their own, so a
// struct of the three would be made anew at each call.
pub fn find(keys: &[u8], index: &Index, count: usize, name: &[u8], m: Mark) -> Option<usize>
    requires { Indexed keys.now index.now count × (m ≡ mark_of name.now) }
    ensures { (found_of result ≡ position (key_of keys.now index.now) name.now count) × (found_of result ≤ count) }
{
    let mut next = led(index, m.bucket);
    while let Some(entry) = next {
        if has(keys, index, count, entry, name, m) {
            return Some(entry);
        }
        next = led(index, BUCKETS + entry * FIELDS + BEFORE);
    }
    None
}

// One entry more, behind the first `count`.
pub fn enter(index: &mut Index, count: usize, m: Mark, at: u32, n: u32)
    requires { (count < 256) × (m.bucket < 512) }
    ensures { index.new ≡ entered index.old count m at n }
{
    let k = BUCKETS + count * FIELDS;
    let b = m.bucket;
    let before = index[b];
    index[k] = at;
    index[k + LENGTH] = n;
    index[k + BEFORE] = before;
    index[k + FIRST] = m.first;
    index[k + LAST] = m.last;
    index[b] = (count + 1) as u32;
}
