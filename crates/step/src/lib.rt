// Step: one token after another from an opened draft (document 01, "The calls").

#![tactic(auto)]

ghost use Rattle.std.specs.Prelude.{◌≡◌, ℕ, Ok, IfOk, MatchResult};
ghost use Rattle.chars.specs.Limits.{limits};
ghost use Rattle.tokens.specs.Step.{stepped, onward as onward_of, reached as reached_of};
ghost use Rattle.tokens.specs.Tokens.{Refused as refused};
ghost use Rattle.tokens.specs.Told.{told_token, NoDataIn};
ghost use Rattle.step.specs.Answer.{answered, answer_of};
ghost use Rattle.step.specs.Stepping.{Gives};

use chars::limits;
use chars::refusal::{Refusal, Refused};
use tokens::{Token, token_at};

// An opened draft: the lent bytes together with the place reached.
#[derive(Clone, Copy)]
pub struct Opened<'a> {
    pub draft: &'a [u8],
    pub place: usize,
}

impl<'a> Opened<'a> {
    // Opened at its start.
    pub fn new(draft: &'a [u8]) -> Opened<'a>
        ensures { result ≡ record { draft = draft.entry; place = 0 } }
    {
        Opened { draft, place: 0 }
    }

    // One token, behind which the draft is then opened.
    pub fn step(&mut self) -> Result<Token, Refused>
        ensures told { Gives self.old (told_token result) self.new }
        ensures plain { IfOk result NoDataIn }
    {
        let t = token(self.draft, self.place);
        self.place = onward(self.place, t);
        t
    }
}

// An answer in document 01's numbers, as C has it, with the place reached. A number that an answer has no use for is 0.
#[repr(C)]
#[derive(Clone, Copy)]
pub struct Answer {
    pub number: u64,
    pub place: u64,
    pub after: u64,
    // 0 simple, 1 quoted, 2 curly, 3 last
    pub sort: u64,
    pub prefix: u64,
    pub length: u64,
    pub next: u64,
}

// All but the place reached.
impl From<Result<Token, Refused>> for Answer {
    ghost from_gives = { λ token a. IfOk token NoDataIn → a ≡ answered 0 (told_token token) };

    fn from(token: Result<Token, Refused>) -> Answer {
        let (number, place, after, sort, prefix, length) = match token {
            Ok(Token::Whole(w)) => (0, w.place, w.after, w.sort as u64, w.prefix, w.length),
            Ok(Token::Last { place, after }) => (0, place, after, 3, 0, 0),
            Err(r) => (r.refusal.number(), r.place, 0, 0, 0, 0),
        };
        Answer {
            number,
            place: place as u64,
            after: after as u64,
            sort,
            prefix: prefix as u64,
            length: length as u64,
            next: 0,
        }
    }
}

// Where the next token is looked for: at the draft's start a byte order mark is lost.
fn reached(draft: &[u8], place: usize) -> usize
    ensures { result ≡ reached_of draft.now place }
{
    if 0 < place {
        place
    } else {
        place + chars::start(&draft[place..])
    }
}

// The token from a place of a draft on, or the refusal that comes first.
pub fn token(draft: &[u8], place: usize) -> Result<Token, Refused>
    ensures told { told_token result ≡ stepped limits draft.now place }
    ensures plain { IfOk result NoDataIn }
{
    if limits::DRAFT < draft.len() {
        return Err(Refusal::DraftTooLong.at(0));
    }
    token_at(draft, reached(draft, place))
}

// The place reached behind an answer: after `|;` or a refusal it stays, so that the answer is repeated. A refusal is of any type, and what
// is promised holds for whatever number and place it stands for.
pub fn onward<R: Drop>(place: usize, token: Result<Token, R>) -> usize
    ensures { MatchResult token (λ t. result ≡ onward_of place (told_token (Ok t)))
        (λ r. (number at : ℕ) → result ≡ onward_of place (refused number at)) }
{
    match token {
        Ok(Token::Whole(w)) => w.after,
        Ok(Token::Last { .. }) => place,
        Err(_) => place,
    }
}

// The answer of a token in document 01's numbers, with the place reached behind it.
fn told(next: usize, token: Result<Token, Refused>) -> Answer
    ensures { IfOk token NoDataIn → result ≡ answered next (told_token token) }
{
    Answer {
        next: next as u64,
        ..Answer::from(token)
    }
}

// The token from a place on in document 01's numbers, and the place reached.
pub fn step_at(draft: &[u8], place: usize) -> Answer
    ensures { result ≡ answer_of place (stepped limits draft.now place) }
{
    let t = token(draft, place);
    told(onward(place, t), t)
}

// Opens a draft at its start. Document 01 names it and `step` as functions, and docs/STATEMENTS.md says what they promise.
pub fn open<'a>(draft: &'a [u8]) -> Opened<'a>
    ensures { (result.draft ≡ draft.entry) × (result.place ≡ 0) }
{
    Opened::new(draft)
}

// One token of an opened draft, which is then opened at the place reached.
pub fn step<'s, 'a>(opened: &'s mut Opened<'a>) -> Result<Token, Refused>
    ensures told { Gives opened.old (told_token result) opened.new }
    ensures plain { IfOk result NoDataIn }
{
    opened.step()
}

// The same by an opened draft: it is opened, taken to the place and stepped, and the place told as reached is the one that it is at then.
pub fn by_opening(draft: &[u8], place: usize) -> Answer
    ensures { result ≡ answer_of place (stepped limits draft.now place) }
{
    let mut opened = Opened::new(draft);
    opened.place = place;
    let t = opened.step();
    told(opened.place, t)
}
