// The check: a draft read and checked against a table of operations (document 01, "The calls", "Cells and operations" and "Order").

#![tactic(auto)]

ghost use Rattle.std.specs.Prelude.{◌≡◌, true, eqb, if◌then◌else◌};
ghost use Rattle.chars.specs.Limits.{limits};
ghost use Rattle.table.specs.Entered.{sound, row_count, operations_of, Entered};
ghost use Rattle.cells.specs.Kept.{Held, check_kept, ended_of};
ghost use Rattle.checking.specs.Checking.{told, checking as checking_of};

use cells::{Passed, Stopped, check_kept};
use chars::refusal::Refusal;
use names::Index;
use reading::{Answer, read};
use table::judge;

// Refusal 20: nothing is written.
pub fn unsound(list: &mut [u32], text: &mut [u8]) -> Answer
    ensures value { result ≡ record { number = 20; place = 0; entities = 0; text = 0; consumed = 0; steps = 0; cells = 0 } }
    ensures list_unchanged { list.new ≡ list.old }
    ensures text_unchanged { text.new ≡ text.old }
{
    Answer {
        number: Refusal::TableUnsound.number(),
        place: 0,
        entities: 0,
        text: 0,
        consumed: 0,
        steps: 0,
        cells: 0,
    }
}

// The answer of a check, once reading has answered `a`: the byte after `;` is told where the check passed. No `From`, for it is made of
// two values.
fn finished(a: Answer, ended: Result<Passed, Stopped>) -> Answer
    ensures { result ≡ told a (ended_of ended) }
{
    match ended {
        Ok(passed) => Answer {
            number: 0,
            place: 0,
            steps: passed.steps as u64,
            cells: passed.cells as u64,
            ..a
        },
        Err(stopped) => Answer {
            number: stopped.refusal.number(),
            place: u64::from(stopped.place),
            consumed: 0,
            steps: stopped.steps as u64,
            cells: 0,
            ..a
        },
    }
}

// What a check answers once reading has answered `a`: a refusal of reading stands, and else what was read is checked. An answer is laid out
// as C has it, with a number of refusal or 0.
pub fn checked(a: Answer, list: &[u32], text: &[u8], table: &[u8], operations: &Index) -> Answer
    requires { a.number ≡ 0 → Held list.now text.now a.entities × Entered table.now operations.now (row_count table.now)
        × (sound limits table.now ≡ true) }
    ensures { result ≡ (if eqb a.number 0
        then told a (check_kept limits (operations_of table.now) list.now text.now a.entities)
        else a) }
{
    if a.number != 0 {
        return a;
    }
    let ended = check_kept(list, a.entities as usize, text, table, operations);
    finished(a, ended)
}

// Judges a table, reads a draft into two lent buffers as `read` does, and then checks what was read. After 20 and 1 nothing is written;
// after 21 to 30 the buffers hold the whole reading.
pub fn check(draft: &[u8], list: &mut [u32], text: &mut [u8], table: &[u8]) -> Answer
    ensures value { result ≡ (checking_of limits draft.now list.old text.old table.now).answer }
    ensures list_after { list.new
        ≡ (checking_of limits draft.now list.old text.old table.now).list }
    ensures text_after { text.new
        ≡ (checking_of limits draft.now list.old text.old table.now).text }
{
    let mut operations = [0u32; 1792];
    if !judge(table, &mut operations) {
        return unsound(list, text);
    }
    let a = read(draft, list, text);
    checked(a, list, text, table, &operations)
}
