// String data (Shastina Specification, section 3.3), in one loop: where it is closed, and how many of its bytes cleaning takes away.
ghost use Rattle.std.specs.Prelude.{◌≡◌, Bool, ℕ, ◌+◌, ◌-◌, ◌<◌, ◌≤◌, IfSome, length, get_or, if◌then◌else◌};
ghost use Rattle.scan.specs.Data.{Even, Goes};
ghost use Rattle.scan.specs.Found.{Closed};

use chars::limits;
use runs::byte::is_line;
use runs::eight::past_plain;
use wide::{Reach, past_narrow, past_pairs, past_wide};

// The byte after the one that closes a string, and how many clean bytes its data has.
#[derive(Clone, Copy, Debug, PartialEq, Eq)]
pub struct Data {
    pub after: usize,
    pub length: usize,
}

// What takes the level up or down: a mark in a curly string, and `"` in a quoted one, where nothing takes it up but what takes it down.
fn mark(curly: bool, in_curly: u8) -> u8
    ensures { result ≡ (if curly then in_curly else 0x22) }
{
    if curly { in_curly } else { b'"' }
}

// Behind a backslash at `i`: one of three bytes there is data, whatever it would be elsewhere.
fn escaped(draft: &[u8], i: usize, up: u8, down: u8) -> usize
    requires { (i < length draft.now) × (get_or draft.now i 0 ≡ 0x5C) }
    ensures { (i < result)
        × ((curly : Bool) (level : ℕ)
        → up ≡ (if curly then 0x7B else 0x22)
        → down ≡ (if curly then 0x7D else 0x22)
        → Goes draft.now curly i level result level 0) }
{
    let next = i + 1;
    if draft.len() <= next {
        return next;
    }
    let b = draft[next];
    if b == b'\\' {
        return next + 1;
    }
    if b == up {
        return next + 1;
    }
    if b == down {
        return next + 1;
    }
    next
}

// Behind characters above US-ASCII, if any are known.
fn above(draft: &[u8], i: usize) -> Option<Reach>
    requires { i < length draft.now }
    ensures { IfSome result (λ r. (i < r.after) × ((curly : Bool) (level : ℕ) → Goes draft.now curly i level r.after level r.less)) }
{
    let narrow = past_narrow(draft, i);
    if narrow != i {
        return Some(Reach {
            after: narrow,
            less: 0,
        });
    }
    let pairs = past_pairs(draft, i);
    if pairs.after != i {
        return Some(pairs);
    }
    let reach = past_wide(&draft[..], i);
    if reach.after == i {
        return None;
    }
    Some(reach)
}

// Behind any other character of US-ASCII that is no mark, of which CR LF is one. What stands above US-ASCII has a way of its own, which has
// one caller, so that it is no call.
fn other(draft: &[u8], i: usize) -> Option<Reach>
    requires { i < length draft.now }
    ensures { IfSome result (λ r. (i < r.after) × ((curly : Bool) (level : ℕ)
        → Even curly (get_or draft.now i 0)
        → Goes draft.now curly i level r.after level r.less)) }
{
    let b = draft[i];
    if 0x7F < b || b == 0 {
        return None;
    }
    if b == b'\r' {
        if is_line(draft, i) {
            return Some(Reach {
                after: i + 2,
                less: 1,
            });
        }
        return None;
    }
    Some(Reach {
        after: i + 1,
        less: 0,
    })
}

// A string that the byte at `i` closes, whose data has lost `less` bytes to cleaning; nothing where it is longer than the limit.
fn closed(from: usize, i: usize, less: usize) -> Option<Data>
    requires { (from + less ≤ i) × (i < 0xFFFFFFFFFFFFFFFF) }
    ensures { IfSome result (λ d. (d.after ≡ i + 1) × (d.length ≡ i - from - less) × (d.length ≤ 4096)) }
{
    let length = i - from - less;
    if limits::STRING < length {
        return None;
    }
    Some(Data {
        after: i + 1,
        length,
    })
}

// Where a string whose data begins at `from` is closed, if that is known. `curly` is a `bool` as in `past_plain`.
pub fn string_end(draft: &[u8], from: usize, curly: bool) -> Option<Data>
    requires { (0 < from) × (from ≤ length draft.now) }
    ensures { IfSome result (λ d. Closed draft.now curly from d.after d.length) }
{
    let up = mark(curly, b'{');
    let down = mark(curly, b'}');
    let mut at = from;
    let mut less: usize = 0;
    let mut level: usize = 1;
    loop {
        let i = past_plain(&draft[..], at, curly);
        if draft.len() <= i {
            return None;
        }
        let b = draft[i];
        if 0x7F < b {
            let reach = above(&draft[..], i)?;
            at = reach.after;
            less += reach.less;
        } else if b == down {
            if level == 1 {
                return closed(from, i, less);
            }
            level -= 1;
            at = i + 1;
        } else if b == up {
            level += 1;
            at = i + 1;
        } else if b == b'\\' {
            at = escaped(&draft[..], i, up, down);
        } else {
            let reach = other(&draft[..], i)?;
            at = reach.after;
            less += reach.less;
        }
    }
}
