// Eight bytes of a draft at once, as one number: where words, comments and string data go on. A flag is the highest bit of a byte. No sum
// of two bytes is carried over to the next one, since the highest bits are taken away first.
ghost use Rattle.std.specs.Prelude.{◌≡◌, true, false, ℕ, ◌<◌, ◌≤◌, length, get_or};
ghost use Rattle.tokens.specs.Runs.{bytes_of};
ghost use Rattle.runs.specs.Bytes.{goes_on, remark, plain, Flags, Passed};

use crate::past::past_eights;

// A flag for each byte that ends a word or is none of a draft's, and for `!`, `$`, `=` and `~`, which go on with a word: to tell these apart
// too would take more operations for every word. `low` tells those up to SP, `$`, `(` and `,`, `next` those up to `%`, `(` and `)`, and
// `high` tells `;`, `=`, the brackets, `~` and DEL.
pub fn word_flags(w: u64) -> u64
    ensures { Flags goes_on w result }
{
    let x = w & 0x7F7F7F7F7F7F7F7F;
    let low = (x & 0x7373737373737373) + 0x5F5F5F5F5F5F5F5F;
    let next = ((x + 0x0404040404040404) & 0xFAFAFAFAFAFAFAFA) + 0x5656565656565656;
    let high = ((x + 0x0202020202020202) & 0x9D9D9D9D9D9D9D9D) + 0x6363636363636363;
    (w | high | ((low & next) ^ 0x8080808080808080)) & 0x8080808080808080
}

// A flag for each control character and each byte that is not US-ASCII.
fn remark_flags(w: u64) -> u64
    ensures { Flags remark w result }
{
    let x = w & 0x7F7F7F7F7F7F7F7F;
    let low = x + 0x6060606060606060;
    (w | (low ^ 0x8080808080808080)) & 0x8080808080808080
}

// A flag for each byte that quoted string data is not mostly made of: control characters and `"`, which with the bit 2 turned are all those
// below `!`, backslash, and what is not US-ASCII.
fn quoted_flags(w: u64) -> u64
    ensures { Flags (plain false) w result }
{
    let x = w & 0x7F7F7F7F7F7F7F7F;
    let low = (x ^ 0x0202020202020202) + 0x5F5F5F5F5F5F5F5F;
    let escape = (x ^ 0x5C5C5C5C5C5C5C5C) + 0x7F7F7F7F7F7F7F7F;
    (w | ((low & escape) ^ 0x8080808080808080)) & 0x8080808080808080
}

// The same of curly string data: control characters, backslash, from `{` on, and what is not US-ASCII. The two differ in which sums there
// are and in no number, so that one function for both would be no shorter.
fn curly_flags(w: u64) -> u64
    ensures { Flags (plain true) w result }
{
    let x = w & 0x7F7F7F7F7F7F7F7F;
    let low = x + 0x6060606060606060;
    let high = x + 0x0505050505050505;
    let escape = (x ^ 0x5C5C5C5C5C5C5C5C) + 0x7F7F7F7F7F7F7F7F;
    (w | high | ((low & escape) ^ 0x8080808080808080)) & 0x8080808080808080
}

// The same of either. `curly` is the definition's own parameter (specs/Bytes.antt, `plain`): `Sort` of `tokens` has a third case, which no
// string data is of.
fn plain_flags(w: u64, curly: bool) -> u64
    ensures { Flags (plain curly) w result }
{
    if curly {
        return curly_flags(w);
    }
    quoted_flags(w)
}

// How many bytes stand before the first flag.
pub fn before_flag(flags: u64) -> usize
    ensures { (result ≤ 8) × ((i : ℕ) → i < result → get_or (bytes_of 8 flags) i 0 ≡ 0)
        × ((flags ≡ 0 → ⊥) → (result < 8) × (get_or (bytes_of 8 flags) result 0 ≡ 0 → ⊥)) }
{
    let bits = u64::trailing_zeros(flags);
    (bits / 8) as usize
}

// The flags without the first one, before which `k` bytes stand.
pub fn behind_flag(flags: u64) -> u64
    requires { flags ≡ 0 → ⊥ }
    ensures { (result < flags)
        × ((k i : ℕ) → ((j : ℕ) → j < k → get_or (bytes_of 8 flags) j 0 ≡ 0) → (get_or (bytes_of 8 flags) k 0 ≡ 0 → ⊥) → (i ≡ k → ⊥)
        → get_or (bytes_of 8 result) i 0 ≡ 0 → get_or (bytes_of 8 flags) i 0 ≡ 0) }
{
    flags & (flags - 1)
}

// From `at` on, behind bytes that comments are mostly made of.
pub fn past_remark(draft: &[u8], at: usize) -> usize
    requires { at ≤ length draft.now }
    ensures { Passed remark draft.now at result }
{
    past_eights(draft, at, draft.len(), remark_flags)
}

// From `at` on, behind bytes that string data is mostly made of.
pub fn past_plain(draft: &[u8], at: usize, curly: bool) -> usize
    requires { at ≤ length draft.now }
    ensures { Passed (plain curly) draft.now at result }
{
    past_eights(draft, at, draft.len(), |w| plain_flags(w, curly))
}
