// Names: what `?`, `@`, `=` and `:` do (document 01, "Cells and operations").

#![tactic(auto)]

ghost use Rattle.std.specs.Prelude.{◌≡◌, List, ℕ, ◌+◌, ◌<◌, ◌≤◌, length, OnErr};
ghost use Rattle.chars.specs.Limits.{limits};
ghost use Rattle.names.specs.Index.{position, key_of, found_of};
ghost use Rattle.names.specs.Marks.{mark_of};
ghost use Rattle.rules.specs.Cells.{define as define_of, fetch as fetch_of, assign as assign_of, lookup};
ghost use Rattle.rules.specs.Kinds.{kinds};
ghost use Rattle.sight.specs.Row.{text_by};
ghost use Rattle.sight.specs.Stacks.{cells_in, sight_in, names_in, state_in, Stood, Hidden, Stands, Agrees};
ghost use Rattle.sight.specs.Stacks.{SameCells, SameGroups, SameNames};

use chars::refusal::Refusal;
use holding::rows::Row;
use names::{Mark, enter, find, marked};
use sight::row::text_of;
use sight::{Counts, KINDS, Stack, plain};

// Names defined.
const NAMES: usize = 128;

// `=` pushes the kind of the name that was found (26, 29).
fn fetch(stack: &mut Stack, found: Option<usize>) -> Result<(), Refusal>
    requires { (cells_in stack.old ≤ 1024) × (found_of found ≤ 128) }
    ensures answer { (text name : List ℕ) → Stands text stack.old
        → found_of found ≡ position (key_of text stack.old.index) name stack.old.counts.names
        → Agrees (fetch_of limits kinds (state_in text stack.old) (lookup name (names_in text stack.old))) text stack.new result }
    ensures err { OnErr result (stack.new ≡ stack.old) }
    ensures kept { SameGroups stack.old stack.new × SameNames stack.old stack.new }
{
    let Some(entry) = found else {
        return Err(Refusal::NameUnknown);
    };
    stack.push(stack.whats[entry] % KINDS)
}

// `:` takes a cell of its kind (26, 27, 23; 22 came before).
fn store(stack: &mut Stack, found: Option<usize>) -> Result<(), Refusal>
    requires { (cells_in stack.old ≤ 1024) × (0 < stack.old.counts.seen) × (found_of found ≤ 128) }
    ensures answer { (text name : List ℕ) → Stands text stack.old
        → found_of found ≡ position (key_of text stack.old.index) name stack.old.counts.names
        → Agrees (assign_of limits kinds (state_in text stack.old) name (sight_in stack.old)) text stack.new result }
    ensures err { OnErr result (stack.new ≡ stack.old) }
    ensures kept { SameCells stack.old stack.new × SameGroups stack.old stack.new × SameNames stack.old stack.new }
{
    let Some(entry) = found else {
        return Err(Refusal::NameUnknown);
    };
    let what = stack.whats[entry];
    if KINDS <= what {
        return Err(Refusal::PutToConstant);
    }
    let s = stack.counts;
    let left = s.seen - 1;
    if plain(stack.cells[s.base + left]) != what {
        return Err(Refusal::WrongKind);
    }
    stack.counts = s.with_seen(left);
    Ok(())
}

// `?` and `@` take the top cell, and fix the name's kind (25, 30; 22 came before).
fn define(
    stack: &mut Stack,
    found: Option<usize>,
    m: Mark,
    row: Row,
    constant: bool,
) -> Result<(), Refusal>
    requires { (cells_in stack.old ≤ 1024) × (0 < stack.old.counts.seen) × (stack.old.counts.names ≤ 128) × (m.bucket < 512) }
    ensures answer { (text name : List ℕ) → Stands text stack.old → row.text_at + row.text_len ≤ length text
        → name ≡ text_by row text → m ≡ mark_of name
        → found_of found ≡ position (key_of text stack.old.index) name stack.old.counts.names
        → Agrees (define_of limits kinds (state_in text stack.old) constant name (sight_in stack.old)) text stack.new result }
    ensures err { OnErr result (stack.new ≡ stack.old) }
    ensures kept { SameCells stack.old stack.new × SameGroups stack.old stack.new }
{
    if found.is_some() {
        return Err(Refusal::NameDefined);
    }
    let s = stack.counts;
    let count = s.names;
    if NAMES <= count {
        return Err(Refusal::TooManyNames);
    }
    let left = s.seen - 1;
    let kind = plain(stack.cells[s.base + left]);
    enter(&mut stack.index, count, m, row.text_at, row.text_len);
    stack.whats[count] = if constant { kind + KINDS } else { kind };
    stack.counts = Counts {
        seen: left,
        names: count + 1,
        ..s
    };
    Ok(())
}

// `=`. Each of the three looks its name up by itself: with one function for it the counts stay in memory (docs/DECISIONS.md).
pub fn get(row: Row, text: &[u8], stack: &mut Stack) -> Result<(), Refusal>
    requires { (row.text_at + row.text_len ≤ length text.now) × Stood text.now stack.old }
    ensures answer { Hidden stack.old
        → Agrees (fetch_of limits kinds (state_in text.now stack.old) (lookup (text_by row text.now) (names_in text.now stack.old)))
        text.now stack.new result }
    ensures err { OnErr result (stack.new ≡ stack.old) }
    ensures kept { SameGroups stack.old stack.new × SameNames stack.old stack.new }
{
    let name = text_of(row, text);
    let found = find(text, &stack.index, stack.counts.names, name, marked(name));
    fetch(stack, found)
}

// `:` (22 first).
pub fn put(row: Row, text: &[u8], stack: &mut Stack) -> Result<(), Refusal>
    requires { (row.text_at + row.text_len ≤ length text.now) × Stood text.now stack.old }
    ensures answer { Hidden stack.old
        → Agrees (assign_of limits kinds (state_in text.now stack.old) (text_by row text.now) (sight_in stack.old))
        text.now stack.new result }
    ensures err { OnErr result (stack.new ≡ stack.old) }
    ensures kept { SameCells stack.old stack.new × SameGroups stack.old stack.new × SameNames stack.old stack.new }
{
    if stack.counts.seen == 0 {
        return Err(Refusal::TooFewCells);
    }
    let name = text_of(row, text);
    let found = find(text, &stack.index, stack.counts.names, name, marked(name));
    store(stack, found)
}

// `?` and `@` (22 first). `constant` is the definition's own parameter (`rules/Cells.define`).
pub fn fix(row: Row, text: &[u8], stack: &mut Stack, constant: bool) -> Result<(), Refusal>
    requires { (row.text_at + row.text_len ≤ length text.now) × Stood text.now stack.old }
    ensures answer { Hidden stack.old
        → Agrees (define_of limits kinds (state_in text.now stack.old) constant (text_by row text.now) (sight_in
        stack.old)) text.now stack.new result }
    ensures err { OnErr result (stack.new ≡ stack.old) }
    ensures kept { SameCells stack.old stack.new × SameGroups stack.old stack.new }
{
    if stack.counts.seen == 0 {
        return Err(Refusal::TooFewCells);
    }
    let name = text_of(row, text);
    let m = marked(name);
    let found = find(text, &stack.index, stack.counts.names, name, m);
    define(stack, found, m, row, constant)
}
