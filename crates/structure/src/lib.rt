// ( ) [ ] , % ; where no metacommand is open: a token alone, told by its byte.

#![tactic(auto)]

ghost use Rattle.std.specs.Prelude.{◌≡◌, true, false, List, [], ℕ, ◌<◌, ◌≤◌, get_or};
ghost use Rattle.chars.specs.Limits.{limits as base};
ghost use Rattle.entities.specs.Making.{handled};
ghost use Rattle.entities.specs.Stepping.{Ready, Steady, room_left, reader_of, agrees, took, judged_as, closing_as, structural, Ruled};
ghost use Rattle.entities.specs.Stepping.{commanded, brings_by, refused_behind, own_behind, Led};

pub mod last;

use chars::limits;
use chars::refusal::Refusal;
use entities::arrays::{array_begins, array_ends, element_ends};
use entities::brought::begin_group;
use entities::groups::{group_begins, group_ends};
use entities::metacommands::metacommand_begins;
use entities::state::{Mode, State};

// The token `c` by its own rules: `;` is 11.
fn ruled(
    list: &mut [u32],
    groups: &mut [u16],
    s: State,
    c: u8,
    place: usize,
) -> Result<State, Refusal>
    requires { (structural c ≡ true) × (commanded s.mode ≡ false) × (place < 16384) × Steady s list.old groups.old place }
    ensures { Ruled c 0 s list.old groups.old place result list.new groups.new }
{
    // In two halves: of one `match` the compiler makes a jump by a table, by which deep groups take a twelfth more instructions.
    if c < b'*' {
        match c {
            b'(' => group_begins(list, groups, s, place),
            b')' => group_ends(list, groups, s, place),
            _ => metacommand_begins(list, groups, s, place),
        }
    } else {
        match c {
            b',' => element_ends(list, groups, s, place),
            b'[' => Ok(array_begins(s)),
            b']' => array_ends(list, groups, s, place),
            _ => Err(Refusal::SemicolonOutside),
        }
    }
}

// Whether the token `c` brings a begin group.
fn brings(mode: Mode, c: u8) -> bool
    ensures { result ≡ brings_by mode c }
{
    mode == Mode::Bracket && c != b']'
}

// What the token `c` is refused with by its own rules where it brings a begin group.
fn refused(c: u8, depth: usize) -> Result<(), Refusal>
    requires { depth < 64 }
    ensures { result ≡ refused_behind c depth }
{
    match c {
        b')' => Err(Refusal::NoGroup),
        b';' => Err(Refusal::SemicolonOutside),
        b'(' if limits::GROUPS <= depth + 1 => Err(Refusal::TooManyGroups),
        _ => Ok(()),
    }
}

// How many entities it then has.
fn own(c: u8) -> usize
    ensures { result ≡ own_behind c }
{
    match c {
        b'[' => 0,
        b',' => 2,
        _ => 1,
    }
}

// Before the token `c` is ruled: where it brings a begin group, all that can refuse it is asked, 17 and 18 for the group first, and then
// the group is written. So its own rules have one way, whether it brings one or not.
fn led(
    list: &mut [u32],
    groups: &mut [u16],
    s: State,
    c: u8,
    place: usize,
) -> Result<State, Refusal>
    requires { (structural c ≡ true) × (commanded s.mode ≡ false) × (place < 16384) × Steady s list.old groups.old place }
    ensures { Led c s list.old groups.old place result list.new groups.new }
{
    if !brings(s.mode, c) {
        return Ok(s);
    }
    let depth = s.depth;
    if limits::GROUPS <= depth {
        return Err(Refusal::TooManyGroups);
    }
    let room = list.len() - 6 * s.entities;
    if room < 6 {
        return Err(Refusal::ListFull);
    }
    refused(c, depth)?;
    if room < 6 + 6 * own(c) {
        return Err(Refusal::ListFull);
    }
    Ok(begin_group(list, groups, s, place))
}

// The token `c`.
pub fn structure(
    list: &mut [u32],
    groups: &mut [u16],
    s: State,
    c: u8,
    place: usize,
) -> Result<State, Refusal>
    requires { (structural c ≡ true) × (commanded s.mode ≡ false) × (place < 16384) × Steady s list.old groups.old place }
    ensures { (T text : List ℕ) → get_or T 0 0 ≡ c → Ready s list.old text groups.old place
        → agrees (handled base (room_left s list.old text) (reader_of s groups.old) (closing_as 0 T) place
        (λ q. judged_as 0 q place T [])) (took s result) s list.old text list.new text groups.new place }
{
    let inner = led(list, groups, s, c, place)?;
    ruled(list, groups, inner, c, place)
}
