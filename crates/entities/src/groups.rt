// `(` and `)` (Shastina Specification, section 5.2).
ghost use Rattle.std.specs.Prelude.{◌≡◌, false, ◌<◌, ◌≤◌};
ghost use Rattle.entities.specs.Stepping.{Steady, Ruled, commanded};

use crate::bare::one;
use crate::open::{push, top};
use crate::state::{Mode, State};
use chars::limits;
use chars::refusal::Refusal;
use holding::rows::Kind;

// `(`: 17 over the limit.
pub fn group_begins(
    list: &mut [u32],
    groups: &mut [u16],
    s: State,
    place: usize,
) -> Result<State, Refusal>
    requires { (commanded s.mode ≡ false) × (place < 16384) × Steady s list.old groups.old place }
    ensures { Ruled 0x28 0 s list.old groups.old place result list.new groups.new }
{
    if limits::GROUPS <= s.depth {
        return Err(Refusal::TooManyGroups);
    }
    push(groups, s.depth, 0);
    one(list, s, Kind::BeginGroup, place, Mode::Regular, s.depth + 1)
}

// `)`: 14 where the innermost open group is none of its own.
pub fn group_ends(
    list: &mut [u32],
    groups: &mut [u16],
    s: State,
    place: usize,
) -> Result<State, Refusal>
    requires { (commanded s.mode ≡ false) × (place < 16384) × Steady s list.old groups.old place }
    ensures { Ruled 0x29 0 s list.old groups.old place result list.new groups.new }
{
    match top(groups, s.depth) {
        Some(0) => one(list, s, Kind::EndGroup, place, Mode::Regular, s.depth - 1),
        _ => Err(Refusal::NoGroup),
    }
}
