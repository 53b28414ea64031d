// Tail: whether only whitespace follows a place of a draft (Shastina Specification, section 5.8; document 01, "The calls" and "Order").

#![tactic(auto)]

ghost use Rattle.std.specs.Prelude.{◌≡◌, ◌≤◌, eqb, length};
ghost use Rattle.chars.specs.Limits.{limits};
ghost use Rattle.tokens.specs.Tail.{tail as tail_of};
ghost use Rattle.tail.specs.Answer.{answer_of, said};

use chars::limits;
use chars::refusal::Refusal;
use tokens::blank_end;

// A refusal of 1 or 31, or whether the answer is yes, and if not the first place that is not whitespace: in numbers, since C has it so.
#[repr(C)]
#[derive(Clone, Copy)]
pub struct Answer {
    pub number: u64,
    pub yes: u64,
    pub place: u64,
}

// No place is a yes.
impl From<Result<Option<usize>, Refusal>> for Answer {
    ghost from_gives = { λ found a. a ≡ answer_of (said found) };

    #[tactic(auto, unfolding(crate::specs::Answer::answer_of))]
    fn from(found: Result<Option<usize>, Refusal>) -> Answer {
        let (number, yes, place) = match found {
            Err(refusal) => (refusal.number(), 0, 0),
            Ok(None) => (0, 1, 0),
            Ok(Some(place)) => (0, 0, place as u64),
        };
        Answer { number, yes, place }
    }
}

// Whether a place where whitespace ends is the draft's end.
fn at_end(draft: &[u8], place: usize) -> bool
    requires { place ≤ length draft.now }
    ensures { result ≡ eqb place (length draft.now) }
{
    place == draft.len()
}

// The first place from a place of a draft on that is not whitespace, where there is one.
fn behind_blanks(draft: &[u8], place: usize) -> Result<Option<usize>, Refusal>
    ensures { said result ≡ tail_of limits draft.now place }
{
    if limits::DRAFT < draft.len() {
        return Err(Refusal::DraftTooLong);
    }
    if draft.len() < place {
        return Err(Refusal::PlacePastDraft);
    }
    let end = blank_end(draft, place);
    if at_end(draft, end) {
        return Ok(None);
    }
    Ok(Some(end))
}

// A draft over the limit is refused with 1, and a place past the draft with 31.
pub fn tail(draft: &[u8], place: usize) -> Answer
    ensures { result ≡ answer_of (tail_of limits draft.now place) }
{
    Answer::from(behind_blanks(draft, place))
}
