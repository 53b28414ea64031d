// Tokens whose entities have no text: one or two of them. 18 where they do not fit.
ghost use Rattle.std.specs.Prelude.{◌≡◌, [], ◌∷◌, ◌*◌, ◌<◌, ◌≤◌, length};
ghost use Rattle.holding.specs.Kind.{kind_code};
ghost use Rattle.entities.specs.Entity.{bare as bare_of, end-group};
ghost use Rattle.entities.specs.Judging.{counting};
ghost use Rattle.entities.specs.Stepping.{Fits};
ghost use Rattle.entities.specs.declared.state.Mode.TheVariants.{Regular};

use crate::state::{Mode, State};
use chars::refusal::Refusal;
use holding::rows::{Kind, Row};

// A token of one entity.
pub fn one(
    list: &mut [u32],
    s: State,
    kind: Kind,
    place: usize,
    mode: Mode,
    depth: usize,
) -> Result<State, Refusal>
    requires { (6 * s.entities ≤ length list.old) × (place < 16384) × (s.text ≤ 8192 * place) }
    ensures { Fits s list.old (counting (kind_code kind) place 0 ∷ []) mode depth list.new result }
{
    if list.len() - 6 * s.entities < 6 {
        return Err(Refusal::ListFull);
    }
    let row = Row::bare(kind, place as u32, s.text as u32);
    row.write(list, s.entities * 6);
    Ok(State {
        mode,
        depth,
        entities: s.entities + 1,
        ..s
    })
}

// A token of two, an end group and another with a count, in regular mode.
pub fn two(
    list: &mut [u32],
    s: State,
    kind: Kind,
    count: u32,
    place: usize,
    depth: usize,
) -> Result<State, Refusal>
    requires { (6 * s.entities ≤ length list.old) × (place < 16384) × (s.text ≤ 8192 * place) }
    ensures { Fits s list.old (bare_of end-group place ∷ counting (kind_code kind) place count ∷ []) Regular depth list.new result }
{
    if list.len() - 6 * s.entities < 12 {
        return Err(Refusal::ListFull);
    }
    let end = Row::bare(Kind::EndGroup, place as u32, s.text as u32);
    let row = Row {
        kind: kind.code(),
        count,
        ..end
    };
    end.write(list, s.entities * 6);
    row.write(list, s.entities * 6 + 6);
    Ok(State {
        mode: Mode::Regular,
        depth,
        entities: s.entities + 2,
        ..s
    })
}
