// How far the bytes of a draft pass a test, one by one, and eight at once by flags (eight.rt).
ghost use Rattle.std.specs.Prelude.{◌≡◌, Bool, false, ℕ, ◌<◌, ◌≤◌, length, get_or};
ghost use Rattle.runs.specs.Bytes.{Tests, FlagsOf, Passed};

use crate::eight::before_flag;
use tokens::number::eight;

// From `at` on, behind bytes that pass a test, up to `end`.
pub fn past_bytes<F: Fn(u8) -> bool>(draft: &[u8], at: usize, end: usize, passes: F) -> usize
    requires within { (at ≤ end) × (end ≤ length draft.now) }
    requires callable { F.IsAlwaysCallable passes }
    ensures { (test : ℕ → Bool) → Tests test (F.post passes)
        → Passed test draft.now at result × (result ≤ end) × (result < end → test (get_or draft.now result 0) ≡ false) }
{
    for i in at..end {
        if !passes(draft[i]) {
            return i;
        }
    }
    end
}

// The same by flags, which may stand before bytes that pass too, and no further than to where fewer than eight bytes are left.
// By hand: chunks would have to be counted to tell the place, and once more to tell where they end.
pub fn past_eights<F: Fn(u64) -> u64>(draft: &[u8], at: usize, end: usize, flags_of: F) -> usize
    requires within { (at ≤ end) × (end ≤ length draft.now) }
    requires callable { F.IsAlwaysCallable flags_of }
    ensures { (test : ℕ → Bool) → FlagsOf test (F.post flags_of) → Passed test draft.now at result × (result ≤ end) }
{
    let mut i = at;
    while 8 <= end - i {
        let flags = flags_of(eight(draft, i));
        if flags != 0 {
            return i + before_flag(flags);
        }
        i += 8;
    }
    i
}
