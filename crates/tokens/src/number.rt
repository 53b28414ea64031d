// Bytes of a draft or a table as one number, the first of them lowest.
ghost use Rattle.std.specs.Prelude.{◌≡◌, ◌+◌, ◌≤◌, ◌<◌, length, take, drop};
ghost use Rattle.tokens.specs.Runs.{bytes_of};

// Four bytes from `at` on.
pub fn four(draft: &[u8], at: usize) -> u64
    requires { at + 4 ≤ length draft.now }
    ensures { (bytes_of 4 result ≡ take 4 (drop at draft.now)) × (result < 0x100000000) }
{
    u64::from(u32::from_le_bytes(*draft[at..].first_chunk::<4>().unwrap()))
}

// Eight, likewise: two functions, since each is a call of the library, and callers stand on both contracts.
pub fn eight(draft: &[u8], at: usize) -> u64
    requires { at + 8 ≤ length draft.now }
    ensures { bytes_of 8 result ≡ take 8 (drop at draft.now) }
{
    u64::from_le_bytes(*draft[at..].first_chunk::<8>().unwrap())
}
