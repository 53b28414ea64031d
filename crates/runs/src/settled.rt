// Bytes that cleaning leaves as they are wherever they stand in well-formed text: all but CR, and ED, with which surrogates begin.
ghost use Rattle.std.specs.Prelude.{◌≡◌, false, ◌<◌, ◌≤◌, length, get_or};
ghost use Rattle.runs.specs.Bytes.{settled as settled_by, Flags, Passed};

use crate::past::{past_bytes, past_eights};

fn settled(b: u8) -> bool
    ensures { result ≡ settled_by b }
{
    b != 0x0D && b != 0xED
}

// A flag for each CR and each ED of eight bytes.
fn change_flags(w: u64) -> u64
    ensures { Flags settled_by w result }
{
    let x = w & 0x7F7F7F7F7F7F7F7F;
    let line = (x ^ 0x0D0D0D0D0D0D0D0D) + 0x7F7F7F7F7F7F7F7F;
    let pair = (x ^ 0x6D6D6D6D6D6D6D6D) + 0x7F7F7F7F7F7F7F7F;
    (((line | w) & (pair | (w ^ 0x8080808080808080))) ^ 0x8080808080808080) & 0x8080808080808080
}

// From `at` on, behind such bytes, up to `end`: eight at once where there are as many, and then one by one.
pub fn past_settled(draft: &[u8], at: usize, end: usize) -> usize
    requires { (at ≤ end) × (end ≤ length draft.now) }
    ensures { Passed settled_by draft.now at result × (result ≤ end)
        × (result < end → settled_by (get_or draft.now result 0) ≡ false) }
{
    past_bytes(
        draft,
        past_eights(draft, at, end, change_flags),
        end,
        settled,
    )
}
