// One round of reading: what stands at a place is taken, and reading goes on behind it or is over.
ghost use Rattle.std.specs.Prelude.{◌≡◌, ◌≤◌, ◌<◌, length, get_or};
ghost use Rattle.runs.specs.Bytes.{begins_at};
ghost use Rattle.runs.specs.Codes.{begins_code};
ghost use Rattle.scan.specs.Opens.{Ended as EndedBy};
ghost use Rattle.entities.specs.Stepping.{Ready, took};
ghost use Rattle.entities.specs.declared.state.State.{State};
ghost use Rattle.entities.specs.declared.state.Mode.TheVariants.{Metacommand};
ghost use Rattle.reading.specs.Rounds.{goes_round, turn, opened, opening_of, behind_of, ended_of};

use chars::limits;
use chars::refusal::{Refusal, Refused};
use entities::metacommands::metacommand_ends;
use entities::state::{Mode, State};
use runs::sorts::Begins;
use scan::{Ended, How, Piece};
use structure::last::last;
use structure::structure;
use texts::{take, take_word};
use tokens::Token;

// What a round comes to: the state behind what was taken, and the place there.
#[derive(Clone, Copy)]
pub enum Round {
    // Reading goes on.
    Next { state: State, after: usize },
    // The last token was taken.
    Last { state: State, after: usize },
}

// Where reading begins: behind a byte order mark, if there is one. A draft over the limit is refused.
#[tactic(auto, unfolding(crate::specs::Rounds::opening_of))]
pub fn opening(draft: &[u8]) -> Result<usize, Refused>
    ensures { opened result ≡ opening_of draft.now }
{
    if limits::DRAFT < draft.len() {
        return Err(Refusal::DraftTooLong.at(0));
    }
    Ok(chars::start(draft))
}

// A round whose token is not the last: behind it, or its refusal at its place.
#[tactic(auto, unfolding(crate::specs::Rounds::behind_of, entities::specs::Stepping::took))]
fn behind(step: Result<State, Refusal>, place: usize, after: usize) -> Result<Round, Refused>
    ensures { (s : State) → turn s result ≡ behind_of (took s step) place after }
{
    let state = step.map_err(|refusal| refusal.at(place))?;
    Ok(Round::Next { state, after })
}

// A round whose token is the last. With the variant handed in, one function for both would be no plainer.
#[tactic(auto, unfolding(crate::specs::Rounds::ended_of, entities::specs::Stepping::took))]
fn ended(step: Result<State, Refusal>, place: usize, after: usize) -> Result<Round, Refused>
    ensures { (s : State) → turn s result ≡ ended_of (took s step) place after }
{
    let state = step.map_err(|refusal| refusal.at(place))?;
    Ok(Round::Last { state, after })
}

// A comment, a string, `|;`, or what no straight way knows.
fn piece(
    draft: &[u8],
    list: &mut [u32],
    text: &mut [u8],
    groups: &mut [u16],
    s: State,
    at: usize,
    begins: Begins,
    e: Option<Ended>,
) -> Result<Round, Refused>
    requires { (length draft.now ≤ 16384) × Ready s list.old text.old groups.old at × (at < length draft.now)
        × (begins_code begins ≡ begins_at draft.now at)
        × (begins_code begins ≡ 3 → (s.mode ≡ Metacommand) × (get_or draft.now at 0 ≡ 0x25 → ⊥) × (get_or draft.now at 0 ≡ 0x3B → ⊥))
        × EndedBy draft.now at e }
    ensures { goes_round draft.now list.old text.old groups.old s at (turn s result)
        list.new text.new groups.new }
{
    let p = scan::found(draft, at, begins, e)?;
    match p {
        Piece::Blank { after } => Ok(Round::Next { state: s, after }),
        Piece::Token(Token::Last { place, after }) => {
            ended(last(list, groups, s, place), place, after)
        }
        Piece::Token(Token::Whole(w)) => {
            behind(take(draft, list, text, groups, s, w), w.place, w.after)
        }
    }
}

// The next round, told by the byte that stands there.
pub fn go_round(
    draft: &[u8],
    list: &mut [u32],
    text: &mut [u8],
    groups: &mut [u16],
    s: State,
    at: usize,
) -> Result<Round, Refused>
    requires { (length draft.now ≤ 16384) × Ready s list.old text.old groups.old at }
    ensures { goes_round draft.now list.old text.old groups.old s at (turn s result)
        list.new text.new groups.new }
{
    if draft.len() <= at {
        return Err(Refusal::DraftEnds.at(draft.len()));
    }
    let b = draft[at];
    let begins = scan::begins_at(draft, at);
    if begins == Begins::Atomic {
        if s.mode == Mode::Metacommand {
            if b == b'%' {
                return Err(Refusal::PercentInside.at(at));
            }
            if b == b';' {
                return behind(metacommand_ends(list, groups, s, at), at, at + 1);
            }
        } else {
            return behind(structure(list, groups, s, b, at), at, at + 1);
        }
    }
    let e = scan::worded(draft, at, begins);
    match e {
        Some(word) if word.how == How::Simple => {
            let step = take_word(draft, list, text, groups, s, b, at, word.at - at);
            behind(step, at, word.at)
        }
        _ => piece(draft, list, text, groups, s, at, begins, e),
    }
}
