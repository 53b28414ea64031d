// The listing program (document 01, "Drafts to try"): reads a draft on standard input and writes a line for each entity, then a
// line that says how reading ended.

#![tactic(auto)]

ghost use Rattle.std.specs.Prelude.{◌*◌, ◌≤◌, length};

use chars::limits;
use input::read_full;
use reading::Answer;
use std::io;

// Room for 2,000 entities, six numbers to each, and for as much text as a draft has bytes.
const NUMBERS: usize = 12000;

const TEXT: usize = 16384;

// A line for each of the first entities of a list: place, kind, text length, data length, count.
fn write_entities(rt: &impl Print, list: &[u32], held: usize) -> io::Result<()>
    requires { 6 * held ≤ length list.now }
{
    for [kind, place, _, text, data, count] in list[..6 * held].as_chunks::<6>().0 {
        println!(rt; "{place} {kind} {text} {data} {count}")?;
    }
    Ok(())
}

// `read N` with the byte after `;`, or `refused N P`: the answer is C's struct, in which the number 0 stands for success.
fn write_ending(rt: &impl Print, answer: Answer) -> io::Result<()> {
    match answer {
        Answer {
            number: 0,
            consumed,
            ..
        } => println!(rt; "read {consumed}"),
        Answer { number, place, .. } => println!(rt; "refused {number} {place}"),
    }
}

// The buffer has a byte more than a draft may have, so that a longer draft is refused as such, however long it is.
fn main(rt: HostRuntime) -> io::Result<()> {
    let mut draft = [0u8; limits::DRAFT + 1];
    let mut list = [0u32; NUMBERS];
    let mut text = [0u8; TEXT];
    let length = read_full(&mut rt.reader(), &mut draft)?;
    let answer = reading::read(&draft[..length], &mut list, &mut text);
    write_entities(&rt, &list, answer.entities as usize)?;
    write_ending(&rt, answer)
}
