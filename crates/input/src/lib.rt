// Standard input as a whole, for the programs, and its lines.

#![tactic(auto)]

ghost use Rattle.std.specs.Prelude.{◌≡◌, ◌+◌, ◌<◌, ◌≤◌, ◌==◌, [], length, take, drop, position, IfOk, IfSome, MatchOption};
ghost use Rattle.std.specs.Iterator.{at_most};

use std::io;
use std::io::Read;

// Reads until the buffer is full or the input ends, and tells how many bytes it put at the buffer's start.
pub fn read_full<R: Read>(from: &mut R, buffer: &mut [u8]) -> io::Result<usize>
    ensures { IfOk result (λ n. n ≤ length buffer.new) }
{
    let mut held = 0;
    while held < buffer.len() {
        let n = from.read(&mut buffer[held..])?;
        if n == 0 {
            return Ok(held);
        }
        held += n;
    }
    Ok(held)
}

// Where the first LF stands.
fn first_lf(input: &[u8]) -> Option<usize>
    ensures value { result ≡ position (λ b. b == 10) input.now }
    ensures within { IfSome result (λ at. at < length input.now) }
{
    input.iter().position(|b| *b == b'\n')
}

// The lines of an input, without their LFs. What stands behind the last LF is a line too, but for nothing.
#[derive(Drop)]
pub struct Lines<'a> {
    rest: &'a [u8],
}

impl<'a> Lines<'a> {
    pub fn of(input: &'a [u8]) -> Lines<'a>
        ensures { result.rest ≡ input.entry }
    {
        Lines { rest: input }
    }
}

impl<'a> Iterator for Lines<'a> {
    type Item = &'a [u8];

    ghost next_gives = { λ s r t. MatchOption r ((length s.rest.now ≡ 0) × (t ≡ s)) (λ x. (0 < length s.rest.now) × MatchOption (position (λ b. b == 10) s.rest.now) ((x.now ≡ s.rest.now) × (t.rest.now ≡ [])) (λ at. (x.now ≡ take at s.rest.now) × (t.rest.now ≡ drop (at + 1) s.rest.now))) };

    ghost remaining = { λ s. at_most (length s.rest.now) };

    fn next(&mut self) -> Option<&'a [u8]> {
        if self.rest.is_empty() {
            return None;
        }
        let (line, rest) = match first_lf(self.rest) {
            Some(at) => (&self.rest[..at], &self.rest[at + 1..]),
            None => self.rest.split_at(self.rest.len()),
        };
        self.rest = rest;
        Some(line)
    }
}
