// The table of operations, judged from its bytes: document 01, "Cells and operations", and docs/LAYOUT.md. The names of its operations are
// entered in an index on the way, so that each is compared with few others.

#![tactic(auto)]

ghost use Rattle.std.specs.Prelude.{◌≡◌, true, ◌+◌, ◌<◌, ◌≤◌, length};
ghost use Rattle.chars.specs.Limits.{limits};
ghost use Rattle.names.specs.Index.{Indexed};
ghost use Rattle.table.specs.Table.{all_below, field_sound, row_sound};
ghost use Rattle.table.specs.Entered.{sound, row_count, row_place, newly, Entered};

use names::{Index, enter, find, marked};
use tokens::number::eight;

// Where the parts of an operation stand in its row, and how long a row is.
pub const WIDTH: usize = 274;

pub const TAKES: usize = 256;

pub const GIVES: usize = 265;

// Operations in a table.
const OPERATIONS: usize = 256;

// Whether every byte is below a bound.
fn all_below(part: &[u8], bound: u8) -> bool
    ensures { result ≡ all_below bound part.now }
{
    part.iter().all(|b| *b < bound)
}

// Whether every byte is 0. No byte ends the loop, so that many are taken at a time.
fn zeros(part: &[u8]) -> bool
    ensures { result ≡ all_below 1 part.now }
{
    part.iter().fold(0, |seen, b| seen | *b) == 0
}

// Items or kinds: at most eight, each below a bound, and zeros behind them, where the eight bytes as one number have no more bytes than
// there are entries.
fn entries_sound(row: &[u8], at: usize, bound: u8) -> bool
    requires { at + 9 ≤ length row.now }
    ensures { result ≡ field_sound at 8 bound row.now }
{
    let n = usize::from(row[at]);
    if 8 < n {
        return false;
    }
    if n < 8 && eight(row, at + 1) >> (8 * n) != 0 {
        return false;
    }
    all_below(&row[at + 1..at + 1 + n], bound)
}

fn operation_sound(row: &[u8]) -> bool
    requires { 274 ≤ length row.now }
    ensures { result ≡ row_sound row.now }
{
    let n = usize::from(row[0]);
    if n == 0 {
        return false;
    }
    entries_sound(row, TAKES, 32) && entries_sound(row, GIVES, 16) && zeros(&row[1 + n..TAKES])
}

// Whether the row is sound and no row behind it has its name; then its name is entered.
fn operation_entered(table: &[u8], index: &mut Index, at: usize, count: usize) -> bool
    requires { Entered table.now index.old count × (count < row_count table.now) × (row_count table.now ≤ 256)
        × (at ≡ row_place table.now count) }
    ensures { (result ≡ newly table.now count) × (result ≡ true → Entered table.now index.new (count + 1)) }
{
    let row = &table[at..at + WIDTH];
    if !operation_sound(row) {
        return false;
    }
    let n = usize::from(row[0]);
    let name = &row[1..1 + n];
    let m = marked(name);
    if find(table, index, count, name, m).is_some() {
        return false;
    }
    enter(index, count, m, (at + 1) as u32, n as u32);
    true
}

// Whether a table is sound. Then the index, which had no entry, has its operations' names; it is lent, for an `Option` of it would be
// seven kilobytes to hand back.
pub fn judge(table: &[u8], index: &mut Index) -> bool
    requires { Indexed table.now index.old 0 × (length index.old ≡ 1792) }
    ensures { (result ≡ sound limits table.now)
        × (result ≡ true → Entered table.now index.new (row_count table.now)) }
{
    if table.len() % WIDTH != 0 {
        return false;
    }
    let n = table.len() / WIDTH;
    if OPERATIONS < n {
        return false;
    }
    for k in 0..n {
        if !operation_entered(table, index, (n - 1 - k) * WIDTH, k) {
            return false;
        }
    }
    true
}
