// `|;` (Shastina Specification, sections 5.1 and 5.8): 12 in a metacommand, 13 with a group or an array open.
ghost use Rattle.std.specs.Prelude.{◌≡◌, false, List, ℕ, ◌<◌, ◌≤◌};
ghost use Rattle.chars.specs.Limits.{limits as base};
ghost use Rattle.entities.specs.Making.{handled, judged_last};
ghost use Rattle.entities.specs.Stepping.{Ready, Steady, room_left, reader_of, agrees, took};

use chars::limits;
use chars::refusal::Refusal;
use entities::bare::one;
use entities::state::{Mode, State};
use holding::rows::Kind;

pub fn last(list: &mut [u32], groups: &[u16], s: State, place: usize) -> Result<State, Refusal>
    requires { (place < 16384) × Steady s list.old groups.now place }
    ensures { (text : List ℕ) → Ready s list.old text groups.now place
        → agrees (handled base (room_left s list.old text) (reader_of s groups.now) false place
        (λ q. judged_last q place)) (took s result) s list.old text list.new text groups.now place }
{
    let depth = s.depth;
    match s.mode {
        Mode::Bracket => {
            if limits::GROUPS <= depth {
                return Err(Refusal::TooManyGroups);
            }
            if list.len() - 6 * s.entities < 6 {
                return Err(Refusal::ListFull);
            }
            Err(Refusal::LastInGroup)
        }
        Mode::Metacommand => Err(Refusal::LastInMetacommand),
        Mode::Regular => {
            if depth != 0 {
                return Err(Refusal::LastInGroup);
            }
            one(list, s, Kind::End, place, Mode::Regular, 0)
        }
    }
}
