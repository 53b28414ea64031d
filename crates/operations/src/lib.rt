// Operations: the items that one takes, and the kinds that it gives (document 01, "Cells and operations").

#![tactic(auto)]

ghost use Rattle.std.specs.Prelude.{◌≡◌, true, List, map, ℕ, ◌+◌, ◌*◌, ◌<◌, ◌≤◌, length, get_or, OnErr};
ghost use Rattle.chars.specs.Limits.{limits};
ghost use Rattle.table.specs.Table.{field, item as item_of, find as find_of};
ghost use Rattle.table.specs.Entered.{sound, row_count, row_place, row_from, operations_of, Entered};
ghost use Rattle.rules.specs.Cells.{all_of, take_array, take_item, take_items, given as given_of, operate as operate_of, leaves};
ghost use Rattle.rules.specs.Kinds.{kinds, wanted_of};
ghost use Rattle.sight.specs.Row.{text_by};
ghost use Rattle.sight.specs.Arrays.{cell_of, sight_of};
ghost use Rattle.sight.specs.Stacks.{cells_in, state_in, Stands, SameGroups, SameNames, Agrees};
ghost use Rattle.operations.specs.Taken.{left_of, at_most, laid};

use chars::refusal::Refusal;
use holding::rows::Row;
use names::{BUCKETS, FIELDS, Index, find, marked};
use sight::row::text_of;
use sight::{CELLS, KINDS, Stack, plain};
use table::{GIVES, TAKES, WIDTH};

// Whether all cells are of a kind.
fn all(cells: &[u64], kind: u64) -> bool
    ensures { result ≡ all_of limits kinds kind (sight_of cells.now 0 (length cells.now)) }
{
    cells.iter().all(|c| plain(*c) == kind)
}

// An array's cells behind its number cell `c`, among the cells in sight, the top last: 24, then for all of them 22 before 23. What is left
// is told by how many they are.
fn array(cells: &[u64], kind: u64, c: u64) -> Result<usize, Refusal>
    ensures { (left_of cells.now 0 result ≡ take_array limits kinds kind (wanted_of (cell_of c)) (sight_of cells.now
        0 (length cells.now))) × at_most (length cells.now) result }
{
    if c < KINDS {
        return Err(Refusal::NoCount);
    }
    let many = c - KINDS;
    if (cells.len() as u64) < many {
        return Err(Refusal::TooFewCells);
    }
    let left = cells.len() - many as usize;
    if !all(&cells[left..], kind) {
        return Err(Refusal::WrongKind);
    }
    Ok(left)
}

// One item from the top: 22, 23; of an array the number cell first.
fn item(cells: &[u64], item: u64) -> Result<usize, Refusal>
    ensures { (left_of cells.now 0 result ≡ take_item limits kinds (item_of item) (sight_of cells.now 0 (length cells.now)))
        × at_most (length cells.now) result }
{
    let Some((top, below)) = cells.split_last() else {
        return Err(Refusal::TooFewCells);
    };
    if item < KINDS {
        if plain(*top) != item {
            return Err(Refusal::WrongKind);
        }
        return Ok(below.len());
    }
    if plain(*top) != 0 {
        return Err(Refusal::WrongKind);
    }
    array(below, item - KINDS, *top)
}

// The items in order.
fn items(cells: &[u64], wanted: &[u8]) -> Result<usize, Refusal>
    ensures { (left_of cells.now 0 result ≡ take_items limits kinds (map item_of wanted.now) (sight_of cells.now 0 (length cells.now)))
        × at_most (length cells.now) result }
{
    let mut left = cells.len();
    for i in wanted {
        left = item(&cells[..left], u64::from(*i))?;
    }
    Ok(left)
}

// Kinds become cells from `top` on.
fn give(cells: &mut [u64; 1024], top: usize, kinds: &[u8])
    requires { top + length kinds.now ≤ 1024 }
    ensures { cells.new ≡ laid cells.old top kinds.now }
{
    for (k, kind) in kinds.iter().enumerate() {
        cells[top + k] = u64::from(*kind);
    }
}

// The kinds given, where taking the items left so many cells in sight: after all items 29.
fn given(stack: &mut Stack, left: usize, given: &[u8]) -> Result<(), Refusal>
    requires { (stack.old.counts.base + left ≤ 1024) × (left ≤ stack.old.counts.seen) × (length given.now ≤ 8)
        × ((k : ℕ) → k < length given.now → get_or given.now k 0 < 16) }
    ensures answer { (step : ℕ) (text : List ℕ) → Stands text stack.old → Agrees (given_of limits kinds step (state_in text stack.old)
        given.now (leaves (sight_of stack.old.cells stack.old.counts.base left))) text stack.new result }
    ensures err { OnErr result (stack.new ≡ stack.old) }
    ensures kept { SameGroups stack.old stack.new × SameNames stack.old stack.new }
{
    let s = stack.counts;
    let top = s.base + left;
    if CELLS < top + given.len() {
        return Err(Refusal::TooManyCells);
    }
    give(&mut stack.cells, top, given);
    stack.counts = s.with_seen(left + given.len());
    Ok(())
}

// The entries of a row's field, which begins with their number.
fn entries(row: &[u8], at: usize) -> &[u8]
    requires { at + 1 + get_or row.now at 0 ≤ length row.now }
    ensures { result.now ≡ field at row.now }
{
    let n = usize::from(row[at]);
    &row[at + 1..at + 1 + n]
}

// The row of the operation that an entry of the index stands for.
fn row_of<'a>(table: &'a [u8], operations: &Index, entry: usize) -> &'a [u8]
    requires { Entered table.now operations.now (row_count table.now) × (entry < row_count table.now) }
    ensures { result.now ≡ row_from table.now (row_place table.now entry) }
{
    let at = operations[BUCKETS + entry * FIELDS] as usize - 1;
    &table[at..at + WIDTH]
}

// An operation: 21, then its items.
pub fn operate(
    row: Row,
    text: &[u8],
    table: &[u8],
    operations: &Index,
    stack: &mut Stack,
) -> Result<(), Refusal>
    requires { (row.text_at + row.text_len ≤ length text.now) × Entered table.now operations.now (row_count table.now)
        × (sound limits table.now ≡ true) × (cells_in stack.old ≤ 1024) }
    ensures answer { (step : ℕ) → Stands text.now stack.old → Agrees (operate_of limits kinds step (state_in text.now stack.old)
        (find_of (text_by row text.now) (operations_of table.now))) text.now stack.new result }
    ensures err { OnErr result (stack.new ≡ stack.old) }
    ensures kept { SameGroups stack.old stack.new × SameNames stack.old stack.new }
{
    let name = text_of(row, text);
    let Some(entry) = find(table, operations, table.len() / WIDTH, name, marked(name)) else {
        return Err(Refusal::OperationUnknown);
    };
    let operation = row_of(table, operations, entry);
    let s = stack.counts;
    let left = items(
        &stack.cells[s.base..s.base + s.seen],
        entries(operation, TAKES),
    )?;
    given(stack, left, entries(operation, GIVES))
}
