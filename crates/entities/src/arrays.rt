// `[`, `,` and `]` (Shastina Specification, section 5.3).
ghost use Rattle.std.specs.Prelude.{◌≡◌, false, ◌<◌, ◌≤◌};
ghost use Rattle.entities.specs.Stepping.{Steady, Ruled, commanded};
ghost use Rattle.entities.specs.declared.state.Mode.TheVariants.{Bracket};

use crate::bare::{one, two};
use crate::open::top;
use crate::state::{Mode, State};
use chars::refusal::Refusal;
use holding::rows::Kind;

// `[`: no entity yet, and the next token brings a begin group unless it is `]`.
pub fn array_begins(s: State) -> State
    ensures { result ≡ record { mode = Bracket; depth = s.depth; entities = s.entities; text = s.text } }
{
    State {
        mode: Mode::Bracket,
        ..s
    }
}

// `,`: 15 where the innermost open group is no element.
pub fn element_ends(
    list: &mut [u32],
    groups: &mut [u16],
    s: State,
    place: usize,
) -> Result<State, Refusal>
    requires { (commanded s.mode ≡ false) × (place < 16384) × Steady s list.old groups.old place }
    ensures { Ruled 0x2C 0 s list.old groups.old place result list.new groups.new }
{
    match top(groups, s.depth) {
        Some(number) if number != 0 => {
            groups[s.depth - 1] = number + 1;
            two(list, s, Kind::BeginGroup, 0, place, s.depth)
        }
        _ => Err(Refusal::NoElement),
    }
}

// `]`: right behind `[` the count is 0 and there is no group; else 16 where the innermost open group is no element.
pub fn array_ends(
    list: &mut [u32],
    groups: &[u16],
    s: State,
    place: usize,
) -> Result<State, Refusal>
    requires { (commanded s.mode ≡ false) × (place < 16384) × Steady s list.old groups.now place }
    ensures { Ruled 0x5D 0 s list.old groups.now place result list.new groups.now }
{
    if s.mode == Mode::Bracket {
        return one(list, s, Kind::Array, place, Mode::Regular, s.depth);
    }
    match top(groups, s.depth) {
        Some(number) if number != 0 => two(
            list,
            s,
            Kind::Array,
            u32::from(number),
            place,
            s.depth - 1,
        ),
        _ => Err(Refusal::NoArray),
    }
}
