// Steps through the drafts of standard input, a draft a line, by an opened draft each time. It writes a line for each token: place, the
// byte after, sort, lengths of prefix and clean data; and then `last P N`, the place of `|;` and the byte after it, or `refused N P`.

#![tactic(auto)]

use chars::refusal::Refused;
use input::{Lines, read_full};
use std::io;
use step::Opened;
use tokens::{Token, Whole};

const INPUT: usize = 65536;

fn write_token(rt: &impl Print, w: Whole) -> io::Result<()> {
    let Whole {
        place,
        after,
        prefix,
        length,
        ..
    } = w;
    println!(rt; "{place} {after} {} {prefix} {length}", w.sort as u8)
}

// A draft from its opening on. A token takes a byte at least, so one step more than there are bytes comes to an end.
fn step_through(rt: &impl Print, draft: &[u8]) -> io::Result<()> {
    let mut opened = Opened::new(draft);
    for _ in 0..=draft.len() {
        match opened.step() {
            Ok(Token::Whole(w)) => write_token(rt, w)?,
            Ok(Token::Last { place, after }) => return println!(rt; "last {place} {after}"),
            Err(Refused { refusal, place }) => {
                return println!(rt; "refused {} {place}", refusal.number());
            }
        }
    }
    Ok(())
}

fn main(rt: HostRuntime) -> io::Result<()> {
    let mut input = [0u8; INPUT];
    let length = read_full(&mut rt.reader(), &mut input)?;
    for line in Lines::of(&input[..length]) {
        step_through(&rt, line)?;
    }
    Ok(())
}
