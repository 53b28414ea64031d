// A simple token or a prefix (Shastina Specification, section 3.2, rule 4): the character that ends it.
ghost use Rattle.std.specs.Prelude.{◌≡◌, ◌-◌, ◌<◌, ◌≤◌, IfSome, length};
ghost use Rattle.runs.specs.Codes.{ends_code};
ghost use Rattle.runs.specs.declared.sorts.Ends.TheVariants.{GoesOn};
ghost use Rattle.scan.specs.Found.{Stops, Worded};
ghost use Rattle.scan.specs.Opens.{stop_code};

use crate::How;
use chars::limits;
use runs::blank::white;
use runs::byte::{ends, goes_on};
use runs::eight::{before_flag, behind_flag, word_flags};
use runs::past::past_bytes;
use runs::sorts::Ends;
use tokens::number::eight;

// Where a token's own bytes end, and what they are, unless what stands there is illegal or not US-ASCII.
#[derive(Clone, Copy, Debug, PartialEq, Eq)]
pub struct Stop {
    pub at: usize,
    pub how: Option<How>,
}

// The end of a token of no more bytes than the limit.
fn ending(begun: usize, at: usize, how: Option<How>) -> Option<Stop>
    requires { begun ≤ at }
    ensures { IfSome result (λ s. (s.at ≡ at) × (s.how ≡ how) × (at - begun ≤ 255)) }
{
    if limits::TOKEN < at - begun {
        return None;
    }
    Some(Stop { at, how })
}

// What stands behind a token's own bytes, and where; `GoesOn` says nothing. Two words, which a call answers in registers.
#[derive(Clone, Copy)]
struct Behind {
    at: usize,
    ends: Ends,
}

// Among a draft's last bytes, of which there are no eight: what ends the token that began at `begun`. It stays a call, so that the loop of a
// word is short.
#[inline(never)]
fn among_last(draft: &[u8], begun: usize, at: usize) -> Behind
    requires { (begun < at) × (at ≤ length draft.now) }
    ensures { (result.ends ≡ GoesOn → ⊥) → Stops draft.now begun at result.at (ends_code result.ends) }
{
    let i = past_bytes(draft, at, draft.len(), goes_on);
    if draft.len() <= i {
        return Behind {
            at: i,
            ends: Ends::GoesOn,
        };
    }
    if limits::TOKEN < i - begun {
        return Behind {
            at: i,
            ends: Ends::GoesOn,
        };
    }
    Behind {
        at: i,
        ends: ends(draft[i]),
    }
}

// The same as an end, where it says something.
fn stopped(behind: Behind) -> Option<Stop>
    ensures { IfSome result (λ s. (s.at ≡ behind.at) × (stop_code s.how ≡ ends_code behind.ends) × (behind.ends ≡ GoesOn → ⊥)) }
{
    let how = match behind.ends {
        Ends::Exclusive => Some(How::Simple),
        Ends::Inclusive => Some(How::Prefix),
        Ends::Illegal => None,
        Ends::GoesOn => return None,
    };
    Some(Stop { at: behind.at, how })
}

// The end of the token that began at `begun` with a character that is no token alone. Whitespace right behind it is asked for by itself: many
// words have one byte, and a processor that guesses so need not wait for an end that is computed. Of eight bytes only those with a flag
// are looked at one by one, most of which end the token; the others are signs. By hand: the next eight are read in the middle of the loop.
pub fn word_end(draft: &[u8], begun: usize) -> Option<Stop>
    requires { begun < length draft.now }
    ensures { IfSome result (λ s. Worded draft.now begun s.at (stop_code s.how)) }
{
    let mut at = begun + 1;
    if draft.len() - at < 8 {
        return stopped(among_last(draft, begun, at));
    }
    if white(draft[at]) {
        return Some(Stop {
            at,
            how: Some(How::Simple),
        });
    }
    let mut flags = word_flags(eight(draft, at));
    loop {
        if flags != 0 {
            let i = at + before_flag(flags);
            match ends(draft[i]) {
                Ends::Exclusive => return ending(begun, i, Some(How::Simple)),
                Ends::Inclusive => return ending(begun, i, Some(How::Prefix)),
                Ends::Illegal => return ending(begun, i, None),
                Ends::GoesOn => flags = behind_flag(flags),
            }
        } else {
            at += 8;
            if draft.len() - at < 8 {
                return stopped(among_last(draft, begun, at));
            }
            flags = word_flags(eight(draft, at));
        }
    }
}
