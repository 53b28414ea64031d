// Characters above US-ASCII: two to four bytes by the grammar of RFC 3629, section 4, or a surrogate pair, which is six and becomes four.

#![tactic(auto)]

ghost use Rattle.std.specs.Prelude.{◌≡◌, ℕ, true, [], ◌∷◌, ◌<◌, ◌≤◌, Some, IfSome, length};
ghost use Rattle.chars.specs.Choice.{within as within_by};
ghost use Rattle.chars.specs.Rfc3629.{utf8_2, utf8_3, utf8_4};
ghost use Rattle.wide.specs.Wide.{Stays, Wider, Wides};

// A character's bytes, and how many of them cleaning takes away.
#[derive(Clone, Copy, Debug, PartialEq, Eq)]
pub struct Bytes {
    pub bytes: usize,
    pub less: usize,
}

// Where characters above US-ASCII end, and how many of their bytes cleaning takes away.
#[derive(Clone, Copy, Debug, PartialEq, Eq)]
pub struct Reach {
    pub after: usize,
    pub less: usize,
}

// Whether a byte is from `low` to `high`.
fn within(low: u8, high: u8, b: u8) -> bool
    ensures { result ≡ within_by low high b }
{
    low <= b && b <= high
}

// Whether two bytes are one character, UTF8-2.
fn two(b: u8, c: u8) -> bool
    ensures { result ≡ utf8_2 (b ∷ c ∷ []) }
{
    within(0xC2, 0xDF, b) && within(0x80, 0xBF, c)
}

// Whether three are one, UTF8-3: behind E0 no overlong form, behind ED no surrogate.
fn three(b: u8, c: u8, d: u8) -> bool
    requires { (0xE0 ≤ b) × (b < 0xF0) }
    ensures { result ≡ utf8_3 (b ∷ c ∷ d ∷ []) }
{
    if !within(0x80, 0xBF, d) {
        return false;
    }
    if b == 0xE0 {
        return within(0xA0, 0xBF, c);
    }
    if b == 0xED {
        return within(0x80, 0x9F, c);
    }
    within(0x80, 0xBF, c)
}

// Whether four are one, UTF8-4: behind F0 no overlong form, behind F4 nothing above 10FFFF.
fn four(b: u8, c: u8, d: u8, e: u8) -> bool
    requires { 0xF0 ≤ b }
    ensures { result ≡ utf8_4 (b ∷ c ∷ d ∷ e ∷ []) }
{
    if !within(0x80, 0xBF, d) {
        return false;
    }
    if !within(0x80, 0xBF, e) {
        return false;
    }
    if b == 0xF0 {
        return within(0x90, 0xBF, c);
    }
    if b == 0xF4 {
        return within(0x80, 0x8F, c);
    }
    if 0xF4 < b {
        return false;
    }
    within(0x80, 0xBF, c)
}

// Two bytes at a place that are one character.
fn two_at(draft: &[u8], at: usize) -> Option<Bytes>
    requires { at ≤ length draft.now }
    ensures { Stays draft.now at 2 result }
{
    if draft.len() - at < 2 || !two(draft[at], draft[at + 1]) {
        return None;
    }
    Some(Bytes { bytes: 2, less: 0 })
}

// Three.
fn three_at(draft: &[u8], at: usize) -> Option<Bytes>
    requires { at ≤ length draft.now }
    ensures { Stays draft.now at 3 result }
{
    if draft.len() - at < 3 {
        return None;
    }
    let b = draft[at];
    if !within(0xE0, 0xEF, b) || !three(b, draft[at + 1], draft[at + 2]) {
        return None;
    }
    Some(Bytes { bytes: 3, less: 0 })
}

// Four.
fn four_at(draft: &[u8], at: usize) -> Option<Bytes>
    requires { at ≤ length draft.now }
    ensures { Stays draft.now at 4 result }
{
    if draft.len() - at < 4 {
        return None;
    }
    let b = draft[at];
    if b < 0xF0 || !four(b, draft[at + 1], draft[at + 2], draft[at + 3]) {
        return None;
    }
    Some(Bytes { bytes: 4, less: 0 })
}

// Two surrogates, a high one and right behind it a low one.
fn pair_at(draft: &[u8], at: usize) -> Option<Bytes>
    requires { at ≤ length draft.now }
    ensures { IfSome result (λ c. Wider draft.now at c.bytes c.less) }
{
    if draft.len() - at < 6 {
        return None;
    }
    if draft[at] != 0xED
        || !within(0xA0, 0xAF, draft[at + 1])
        || !within(0x80, 0xBF, draft[at + 2])
    {
        return None;
    }
    if draft[at + 3] != 0xED
        || !within(0xB0, 0xBF, draft[at + 4])
        || !within(0x80, 0xBF, draft[at + 5])
    {
        return None;
    }
    Some(Bytes { bytes: 6, less: 2 })
}

// The character above US-ASCII at a place, if one stands there and four bytes are left.
fn wide_at(draft: &[u8], at: usize) -> Option<Bytes>
    requires { at ≤ length draft.now }
    ensures { IfSome result (λ c. Wider draft.now at c.bytes c.less) }
{
    if draft.len() - at < 4 {
        return None;
    }
    let b = draft[at];
    if b < 0xE0 {
        return two_at(draft, at);
    }
    if 0xF0 <= b {
        return four_at(draft, at);
    }
    three_at(draft, at).or_else(|| pair_at(draft, at))
}

// From `at` on, behind characters of one sort.
fn past<F: Fn(&[u8], usize) -> Option<Bytes>>(draft: &[u8], at: usize, one: F) -> Reach
    requires within { at ≤ length draft.now }
    requires callable { (i : ℕ) → i ≤ length draft.now → F.pre one draft i }
    requires each { (i : ℕ) (c : _) → F.post one draft i (Some c) → Wider draft.now i c.bytes c.less }
    ensures reach { Wides draft.now at result.after result.less × (result.after ≤ length draft.now) }
    ensures stays { ((d : _) (i : ℕ) (c : _) → F.post one d i (Some c) → c.less ≡ 0) → result.less ≡ 0 }
{
    let mut reach = Reach { after: at, less: 0 };
    while let Some(c) = one(draft, reach.after) {
        reach.after += c.bytes;
        reach.less += c.less;
    }
    reach
}

// Behind letters of two bytes and then signs of three. It is short enough to be put into its callers, where `past_wide` stays a call.
pub fn past_narrow(draft: &[u8], at: usize) -> usize
    requires { at ≤ length draft.now }
    ensures { Wides draft.now at result 0 × (result ≤ length draft.now) }
{
    past(draft, past(draft, at, two_at).after, three_at).after
}

// The same, or where none of these stands there, behind pictures of four. It is for one caller alone, since what has two would stay a call.
pub fn past_widths(draft: &[u8], at: usize) -> usize
    requires { at ≤ length draft.now }
    ensures { Wides draft.now at result 0 × (result ≤ length draft.now) }
{
    let narrow = past_narrow(draft, at);
    if narrow != at {
        return narrow;
    }
    past(draft, at, four_at).after
}

// From `at` on, behind characters above US-ASCII.
pub fn past_wide(draft: &[u8], at: usize) -> Reach
    requires { at ≤ length draft.now }
    ensures { Wides draft.now at result.after result.less × (result.after ≤ length draft.now) }
{
    past(draft, at, wide_at)
}

// The same of surrogate pairs alone. It is short enough to be put into its caller.
pub fn past_pairs(draft: &[u8], at: usize) -> Reach
    requires { at ≤ length draft.now }
    ensures { Wides draft.now at result.after result.less × (result.after ≤ length draft.now) }
{
    past(draft, at, pair_at)
}
