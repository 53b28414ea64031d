// The begin group that a token behind `[` brings, unless it is `]`.
ghost use Rattle.std.specs.Prelude.{◌≡◌, ◌∷◌, ◌+◌, ◌*◌, ◌<◌, ◌≤◌, ◌^◌, length};
ghost use Rattle.entities.specs.Judging.{bares, written};
ghost use Rattle.entities.specs.Stepping.{open_groups};
ghost use Rattle.entities.specs.declared.state.Mode.TheVariants.{Regular};

use crate::open::push;
use crate::state::{Mode, State};
use holding::rows::{Kind, Row};

// Writes it, and answers the state in which the token behind it is written: the group is held and open.
pub fn begin_group(list: &mut [u32], groups: &mut [u16], s: State, place: usize) -> State
    requires { (6 * (s.entities + 1) ≤ length list.old) × (s.depth < 64) × (length groups.old ≡ 64) × (place < 2 ^ 32)
        × (s.text < 2 ^ 32) }
    ensures { (result ≡ record { mode = Regular; depth = s.depth + 1; entities = s.entities + 1; text = s.text })
        × (list.new ≡ written list.old s.entities s.text (bares 6 place))
        × (open_groups groups.new (s.depth + 1) ≡ 1 ∷ open_groups groups.old s.depth) }
{
    push(groups, s.depth, 1);
    let row = Row::bare(Kind::BeginGroup, place as u32, s.text as u32);
    row.write(list, s.entities * 6);
    State {
        mode: Mode::Regular,
        depth: s.depth + 1,
        entities: s.entities + 1,
        ..s
    }
}
