// `%` and `;` (Shastina Specification, section 5.1).
ghost use Rattle.std.specs.Prelude.{◌≡◌, false, ◌<◌, ◌≤◌};
ghost use Rattle.entities.specs.Stepping.{Steady, Ruled, commanded};
ghost use Rattle.entities.specs.declared.state.Mode.TheVariants.{Metacommand};

use crate::bare::one;
use crate::state::{Mode, State};
use chars::refusal::Refusal;
use holding::rows::Kind;

// `%` in regular mode.
pub fn metacommand_begins(
    list: &mut [u32],
    groups: &[u16],
    s: State,
    place: usize,
) -> Result<State, Refusal>
    requires { (commanded s.mode ≡ false) × (place < 16384) × Steady s list.old groups.now place }
    ensures { Ruled 0x25 0 s list.old groups.now place result list.new groups.now }
{
    one(
        list,
        s,
        Kind::BeginMetacommand,
        place,
        Mode::Metacommand,
        s.depth,
    )
}

// `;` in a metacommand. Two functions, since each promises what its own byte does, and asks for another mode.
pub fn metacommand_ends(
    list: &mut [u32],
    groups: &[u16],
    s: State,
    place: usize,
) -> Result<State, Refusal>
    requires { (s.mode ≡ Metacommand) × (place < 16384) × Steady s list.old groups.now place }
    ensures { Ruled 0x3B 0 s list.old groups.now place result list.new groups.now }
{
    one(list, s, Kind::EndMetacommand, place, Mode::Regular, s.depth)
}
