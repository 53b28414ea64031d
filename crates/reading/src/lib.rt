// From tokens to entities: Shastina Specification, section 5, and document 01, "From tokens to entities".

#![tactic(auto)]

ghost use Rattle.std.specs.Prelude.{◌≡◌, length};
ghost use Rattle.chars.specs.Limits.{limits as base};
ghost use Rattle.reading.specs.Reading.{reading as reading_of};
ghost use Rattle.reading.specs.Rounds.{answer_of};

mod round;

use chars::refusal::Refused;
use entities::state::{Mode, State};
use round::{Round, go_round, opening};
use runs::blank::past_blanks;

// The answer of read and of check, in numbers since C has it so (include/vogieburn.h). A number that an answer has no use for is 0.
#[repr(C)]
#[derive(Clone, Copy, PartialEq, Eq)]
pub struct Answer {
    // 0 for success, or the number of refusal.
    pub number: u64,
    // The refusal's place in the draft.
    pub place: u64,
    // How many entities the list holds, and how many bytes the text buffer.
    pub entities: u64,
    pub text: u64,
    // On success the byte after `;`.
    pub consumed: u64,
    // Of check: the entities handled, and on success the cells that remain.
    pub steps: u64,
    pub cells: u64,
}

// The answer of read in the state that reading has come to: the byte after `;`, or a refusal. No `From`, for it is made of two values.
fn told(s: State, end: Result<usize, Refused>) -> Answer
    ensures { result ≡ answer_of s end }
{
    let (number, place, consumed) = match end {
        Ok(consumed) => (0, 0, consumed as u64),
        Err(refused) => (refused.refusal.number(), refused.place as u64, 0),
    };
    Answer {
        number,
        place,
        entities: s.entities as u64,
        text: s.text as u64,
        consumed,
        steps: 0,
        cells: 0,
    }
}

// The tokens of a draft, one after another, with an array for the open groups.
fn walk(draft: &[u8], list: &mut [u32], text: &mut [u8], groups: &mut [u16]) -> Answer
    requires { length groups.old ≡ 64 }
    ensures value { result ≡ (reading_of base draft.now list.old text.old).answer }
    ensures list_after { list.new ≡ (reading_of base draft.now list.old text.old).list }
    ensures text_after { text.new ≡ (reading_of base draft.now list.old text.old).text }
{
    let mut s = State {
        mode: Mode::Regular,
        depth: 0,
        entities: 0,
        text: 0,
    };
    let mut at = match opening(draft) {
        Ok(start) => start,
        Err(refused) => return told(s, Err(refused)),
    };
    loop {
        let place = past_blanks(draft, at);
        match go_round(draft, list, text, groups, s, place) {
            Ok(Round::Next { state, after }) => {
                s = state;
                at = after;
            }
            Ok(Round::Last { state, after }) => return told(state, Ok(after)),
            Err(refused) => return told(s, Err(refused)),
        }
    }
}

// Reads a draft into two lent buffers: the entities' numbers into the list, their text and data into the text buffer. Past what is held
// every number and byte is as before.
pub fn read(draft: &[u8], list: &mut [u32], text: &mut [u8]) -> Answer
    ensures value { result ≡ (reading_of base draft.now list.old text.old).answer }
    ensures list_after { list.new ≡ (reading_of base draft.now list.old text.old).list }
    ensures text_after { text.new ≡ (reading_of base draft.now list.old text.old).text }
{
    walk(draft, list, text, &mut [0u16; 64])
}
