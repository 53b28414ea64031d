// The check of what was read, over the list's numbers and the text as they lie in the lent buffers: document 01, "Cells and operations".

#![tactic(auto)]

ghost use Rattle.std.specs.Prelude.{◌≡◌, true};
ghost use Rattle.chars.specs.Limits.{limits};
ghost use Rattle.table.specs.Entered.{sound, row_count, operations_of, Entered};
ghost use Rattle.rules.specs.Cells.{act as act_of};
ghost use Rattle.rules.specs.Kinds.{kinds};
ghost use Rattle.sight.specs.Stacks.{state_in, Stands, Agrees};
ghost use Rattle.cells.specs.Kept.{Held, Here, entity_at, check_kept, ended_of};

use chars::refusal::Refusal;
use holding::rows::Kind;
use names::Index;
use naming::{fix, get, put};
use operations::operate;
use sight::{Counts, KINDS, Stack, row};

// A check that passed: the entities handled, and the cells that remain.
#[derive(Clone, Copy, Debug, PartialEq, Eq)]
pub struct Passed {
    pub steps: usize,
    pub cells: usize,
}

// What stopped a check: the refusal, the place of its entity, and the entities handled before it.
#[derive(Clone, Copy, Debug, PartialEq, Eq)]
pub struct Stopped {
    pub refusal: Refusal,
    pub place: u32,
    pub steps: usize,
}

// The kinds of cells that literals are: numbers, as all kinds of cells are (`KINDS` of `sight`).
const NUMBER: u64 = 0;

const STRING: u64 = 1;

// One entity. Metacommands do nothing, and neither does `|;`.
fn act(
    list: &[u32],
    i: usize,
    text: &[u8],
    table: &[u8],
    operations: &Index,
    stack: &mut Stack,
) -> Result<(), Refusal>
    requires { Here list.now text.now i stack.old.counts.depth × Entered table.now operations.now (row_count table.now)
        × (sound limits table.now ≡ true) × Stands text.now stack.old }
    ensures { Agrees (act_of limits kinds (operations_of table.now) i (state_in text.now stack.old) (entity_at list.now
        text.now i)) text.now stack.new result }
{
    let row = row::of(list, i);
    let Ok(kind) = Kind::try_from(row.kind) else {
        return Ok(());
    };
    match kind {
        Kind::BeginGroup => {
            stack.hide();
            Ok(())
        }
        Kind::EndGroup => stack.show(),
        Kind::Array => stack.push(u64::from(row.count) + KINDS),
        Kind::Number => stack.push(NUMBER),
        Kind::QuotedString | Kind::CurlyString => stack.push(STRING),
        Kind::DefineVariable => fix(row, text, stack, false),
        Kind::DefineConstant => fix(row, text, stack, true),
        Kind::Get => get(row, text, stack),
        Kind::Put => put(row, text, stack),
        Kind::Operation => operate(row, text, table, operations, stack),
        _ => Ok(()),
    }
}

// The first `n` entities of a list, under a table that is sound and whose operations' names are in an index.
pub fn check_kept(
    list: &[u32],
    n: usize,
    text: &[u8],
    table: &[u8],
    operations: &Index,
) -> Result<Passed, Stopped>
    requires { Held list.now text.now n × Entered table.now operations.now (row_count table.now)
        × (sound limits table.now ≡ true) }
    ensures { ended_of result ≡ check_kept limits (operations_of table.now) list.now text.now n }
{
    let mut stack = Stack {
        cells: [0; 1024],
        bases: [0; 64],
        index: [0; 1792],
        whats: [0; 128],
        counts: Counts {
            base: 0,
            seen: 0,
            depth: 0,
            names: 0,
        },
    };
    for i in 0..n {
        if let Err(refusal) = act(list, i, text, table, operations, &mut stack) {
            let stopped = Stopped {
                refusal,
                place: row::of(list, i).place,
                steps: i,
            };
            return Err(stopped);
        }
    }
    Ok(Passed {
        steps: n,
        cells: stack.counts.base + stack.counts.seen,
    })
}
