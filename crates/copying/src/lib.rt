// The copier of one string's clean data, or of one word.

#![tactic(auto)]

ghost use Rattle.std.specs.Prelude.{◌≡◌, true, ℕ, ◌+◌, ◌-◌, ◌*◌, ◌<◌, ◌≤◌, length, get_or, take, drop, IfSome, MatchOption};
ghost use Rattle.std.proofs.Math.Seq.{paste};
ghost use Rattle.chars.specs.Character.{Clean, Whole, sequence, character_at};
ghost use Rattle.tokens.specs.Runs.{class_of};
ghost use Rattle.copying.specs.Copy.{told, copied, copied_into};

// A part that is too small, to which nothing was written.
#[derive(Clone, Copy, Debug, PartialEq, Eq)]
pub struct TooSmall;

// A re-encoded character of four bytes at a place of a part.
pub fn put_four(out: &mut [u8], at: usize, bytes: [u8; 4])
    requires { at + 4 ≤ length out.old }
    ensures { out.new ≡ paste out.old at bytes 4 }
{
    out[at..at + 4].copy_from_slice(&bytes);
}

// Whether cleaning leaves a byte as it is, whatever stands behind it.
fn stays(b: u8) -> bool
    ensures { result ≡ true → 1 ≤ class_of b }
{
    b != 0 && b != 0x0D && b < 0x80
}

// The draft's bytes from a place on, `most` at most.
fn ahead(draft: &[u8], from: usize, most: usize) -> &[u8]
    ensures { result.now ≡ take most (drop from draft.now) }
{
    let rest = &draft[from.min(draft.len())..];
    &rest[..most.min(rest.len())]
}

// Bytes that cleaning leaves as they are, up to the first that it does not, to a place of a part; answers how many. Each is looked at and
// copied in one turn: a part copied as a whole would be `memmove`, which the archive for C would need from outside.
fn kept(bytes: &[u8], out: &mut [u8], at: usize) -> usize
    requires { at + length bytes.now ≤ length out.old }
    ensures { (result ≤ length bytes.now) × (out.new ≡ paste out.old at bytes.now result)
        × ((j : ℕ) → j < result → 1 ≤ class_of (get_or bytes.now j 0)) }
{
    for k in 0..bytes.len() {
        if !stays(bytes[k]) {
            return k;
        }
        out[at + k] = bytes[k];
    }
    bytes.len()
}

// The ten bits of the surrogate at a place whose second byte is one of sixteen from `low` on, if one stands there.
fn half(draft: &[u8], i: usize, low: u8) -> Option<u32>
    requires { (i + 3 ≤ length draft.now) × (0xA0 ≤ low) × (low ≤ 0xB0) }
    ensures { IfSome result (λ ten. (ten < 0x400) × (get_or draft.now i 0 ≡ 0xED)
        × (sequence (drop i draft.now) i ≡ Whole (0xD000 + (low - 0x80) * 64 + ten) (i + 3))) }
{
    if draft[i] != 0xED {
        return None;
    }
    let c = draft[i + 1];
    if c < low || 15 < c - low {
        return None;
    }
    let d = draft[i + 2];
    if d < 0x80 || 0xBF < d {
        return None;
    }
    Some((c - low) as u32 * 64 + (d - 0x80) as u32)
}

// The number of the surrogate pair at a place, if one stands there.
fn pair(draft: &[u8], i: usize) -> Option<u32>
    ensures { IfSome result (λ number. (character_at draft.now i ≡ Clean number (i + 6)) × (0x10000 ≤ number)) }
{
    if draft.len() <= i || draft.len() - i < 6 {
        return None;
    }
    let high = half(draft, i, 0xA0)?;
    let low = half(draft, i + 3, 0xB0)?;
    Some(0x10000 + high * 0x400 + low)
}

// Whether CR LF stands at a place.
fn line_end(draft: &[u8], i: usize) -> bool
    ensures { result ≡ true → character_at draft.now i ≡ Clean 0x0A (i + 2) }
{
    if draft.len() <= i || draft.len() - i < 2 {
        return false;
    }
    draft[i] == 0x0D && draft[i + 1] == 0x0A
}

// The character at a place, if one stands there: a surrogate pair and CR LF at once, all else as cleaning tells it.
fn next(draft: &[u8], i: usize) -> Option<chars::Clean>
    ensures { MatchOption result ((number after : ℕ) → character_at draft.now i ≡ Clean number after → ⊥)
        (λ c. character_at draft.now i ≡ Clean c.number c.after) }
{
    if let Some(number) = pair(draft, i) {
        return Some(chars::Clean {
            number,
            after: i + 6,
        });
    }
    if line_end(draft, i) {
        return Some(chars::Clean {
            number: 0x0A,
            after: i + 2,
        });
    }
    let Ok(Some(clean)) = chars::character_at(draft, i) else {
        return None;
    };
    Some(clean)
}

// The number of the pair at a place, if one stands there and its four bytes are not too many.
pub fn pair_within(draft: &[u8], i: usize, most: usize) -> Option<u32>
    ensures { IfSome result (λ number. (character_at draft.now i ≡ Clean number (i + 6)) × (0x10000 ≤ number) × (4 ≤ most)) }
{
    if most < 4 {
        return None;
    }
    pair(draft, i)
}

// Copies clean bytes from a place of the draft on, `n` at most, to the front of a part, and answers how many. Pairs one behind the other
// are told first.
pub fn copy(draft: &[u8], from: usize, n: usize, out: &mut [u8]) -> Result<usize, TooSmall>
    ensures { (told result ≡ copied draft.now from n out.old)
        × (out.new ≡ copied_into draft.now from n out.old) }
{
    if out.len() < n {
        return Err(TooSmall);
    }
    let mut i = from;
    let mut k: usize = 0;
    loop {
        if let Some(two) = pair_within(&draft[..], i, n - k) {
            put_four(out, k, chars::encode(two).bytes);
            k += 4;
            i += 6;
            continue;
        }
        let same = kept(ahead(&draft[..], i, n - k), out, k);
        k += same;
        i += same;
        if k == n {
            return Ok(k);
        }
        let Some(c) = next(&draft[..], i) else {
            return Ok(k);
        };
        let coded = chars::encode(c.number);
        let size = coded.length;
        if n - k < size {
            return Ok(k);
        }
        let own = &coded.bytes[..size];
        out[k..k + size].copy_from_slice(own);
        k += size;
        i = c.after;
    }
}
