// The drafts of document 01 that are not marked, and more of the same kind for each refusal, each rule of a place and each rule of cells.
// A line of standard input that begins with `R` has a draft, the room and the answer, as tests/vectors/README.md says, and the draft is
// read. One that begins with `C` has a table's bytes behind the room, and steps and cells in the answer, and the draft is checked against
// the table. The answer and both buffers are compared whole. Lines that do not hold are named, and the last line counts.

#![tactic(auto)]

ghost use Rattle.std.specs.Prelude.{◌+◌, ◌^◌, ◌≤◌, ◌<◌};

mod line;

use chars::limits;
use input::{Lines, read_full};
use line::Line;
use reading::Answer;
use std::{fmt, io};

const INPUT: usize = 65536;

const NUMBERS: usize = 12000;

const TEXT: usize = 16384;

// Four operations, in bytes.
const TABLE: usize = 1096;

// What the buffers hold before a reading.
const NUMBER_BEFORE: u32 = 2779096485;

const BYTE_BEFORE: u8 = 165;

// What a line asks for.
#[derive(Clone, Copy, PartialEq, Eq)]
enum Call {
    Read,
    Check,
}

impl Call {
    // A line that begins otherwise is no case.
    fn of(line: &[u8]) -> Option<Call> {
        match line.first()? {
            b'R' => Some(Call::Read),
            b'C' => Some(Call::Check),
            _ => None,
        }
    }

    fn answer(self, draft: &[u8], list: &mut [u32], text: &mut [u8], table: &[u8]) -> Answer {
        match self {
            Call::Read => reading::read(draft, list, text),
            Call::Check => checking::check(draft, list, text, table),
        }
    }

    // The answer that a line has. Steps and cells stand in that of a check only.
    fn wanted(self, line: &mut Line) -> Answer
        ensures { result.entities < 65530 }
    {
        let number = line.number();
        let place = line.number();
        let entities = line.number();
        let text = line.number();
        let consumed = line.number();
        let (steps, cells) = match self {
            Call::Read => (0, 0),
            Call::Check => (line.number(), line.number()),
        };
        Answer {
            number,
            place,
            entities,
            text,
            consumed,
            steps,
            cells,
        }
    }
}

// Whether entities, six numbers to each, are those that come next in the line, up to one that differs.
fn same_entities(line: &mut Line, list: &[u32]) -> bool {
    let mut from = 0;
    for entity in list.as_chunks::<6>().0 {
        let kind = line.number();
        let place = line.number();
        let text = line.number();
        let data = line.number();
        let count = line.number();
        if entity.map(u64::from) != [kind, place, from, text, data, count] {
            return false;
        }
        from = u64::from(entity[2]) + text + data;
    }
    true
}

// Whether a list begins with so many entities of the line, and is past them as it was before the reading.
fn same_list(line: &mut Line, entities: u32, list: &[u32]) -> bool {
    let Some((held, free)) = list.split_at_checked(6 * entities as usize) else {
        return false;
    };
    same_entities(line, held) && free.iter().all(|x| *x == NUMBER_BEFORE)
}

// Whether a text buffer holds a line's last bytes, and past them what it held before.
fn same_text(line: &mut Line, text: &[u8]) -> bool {
    let mut held = [BYTE_BEFORE; TEXT];
    line.pass_blanks();
    line.bytes(&mut held);
    text == held.as_slice()
}

// Whether the answer to a line's draft is as the line says. Draft and table have room for a byte too many, so that one that is too long
// is refused, and not cut to what would do. In a line of reading `=>` follows the room, which is no table.
fn holds(call: Call, line: &[u8]) -> bool {
    let mut draft = [0u8; limits::DRAFT + 1];
    let mut list = [NUMBER_BEFORE; NUMBERS];
    let mut text = [BYTE_BEFORE; TEXT];
    let mut table = [0u8; TABLE + 1];
    let mut line = Line::new(line.get(2..).unwrap_or(&[]));
    let length = line.bytes(&mut draft);
    let numbers = (6 * line.number() as usize).min(NUMBERS);
    let room = (line.number() as usize).min(TEXT);
    line.pass_blanks();
    let operations = line.bytes(&mut table);
    let answer = call.answer(
        &draft[..length],
        &mut list[..numbers],
        &mut text[..room],
        &table[..operations],
    );
    let wanted = call.wanted(&mut line);
    answer == wanted
        && same_list(&mut line, wanted.entities as u32, &list)
        && same_text(&mut line, &text)
}

// How many cases held, and how many did not.
#[derive(Clone, Copy)]
struct Tally {
    passed: u64,
    failed: u64,
}

impl Tally {
    // A line counted in, where it is a case.
    fn count_in(&mut self, rt: &impl Print, line: &[u8], n: usize) -> io::Result<()>
        requires { (self.old.passed < 2 ^ 63) × (self.old.failed < 2 ^ 63) }
        ensures { (self.new.passed ≤ self.old.passed + 1) × (self.new.failed ≤ self.old.failed + 1) }
    {
        let Some(call) = Call::of(line) else {
            return Ok(());
        };
        if holds(call, line) {
            self.passed += 1;
            return Ok(());
        }
        self.failed += 1;
        println!(rt; "does not hold: line {n}")
    }
}

impl fmt::Display for Tally {
    fn fmt<W: fmt::Write>(&self, f: &mut fmt::Formatter<W>) -> fmt::Result {
        write!(f, "{} passed, {} failed", self.passed, self.failed)
    }
}

// Every case of the input.
fn hold_all(rt: &impl Print, input: &[u8]) -> io::Result<()> {
    let mut tally = Tally {
        passed: 0,
        failed: 0,
    };
    for (i, line) in Lines::of(input).enumerate() {
        tally.count_in(rt, line, i + 1)?;
    }
    println!(rt; "{tally}")
}

fn main(rt: HostRuntime) -> io::Result<()> {
    let mut input = [0u8; INPUT];
    let length = read_full(&mut rt.reader(), &mut input)?;
    hold_all(&rt, &input[..length])
}
