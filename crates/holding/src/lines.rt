// Clean data that is not the draft's own bytes: CR LF is one LF, and a surrogate pair is re-encoded.
ghost use Rattle.std.specs.Prelude.{◌≡◌, ◌++◌, ◌≤◌, length, drop};
ghost use Rattle.chars.specs.Stream.{stream_at, clean};

use crate::copy::front;
use copying::{copy, pair_within, put_four};
use runs::settled::past_settled;

// Clean bytes, at least one, to the front of a part. What stands before the next CR or ED is copied as it stands; CR is left out, since its
// LF follows; a surrogate pair, which begins with ED, is re-encoded; and from any other ED on the rest of the part is lent to the copier.
// Data that begins with ED asks for the copier by itself, so that it stays a call, and the loop of reading stays short.
pub fn lines(draft: &[u8], from: usize, n: usize, out: &mut [u8])
    requires { (n ≤ length out.old) × (length (clean n (stream_at draft.now from)) ≡ n) × (1 ≤ n) }
    ensures { out.new ≡ clean n (stream_at draft.now from) ++ drop n out.old }
{
    if draft[from] == 0xED {
        // The part has room for them: the copier does not refuse it, here and below.
        let _ = copy(&draft[..], from, n, out);
        return;
    }
    let mut i = from;
    let mut k: usize = 0;
    loop {
        let r = past_settled(&draft[..], i, i + (n - k));
        front(&draft[i..r], &mut out[k..]);
        k += r - i;
        if k == n {
            return;
        }
        if draft[r] == 0x0D {
            i = r + 1;
        } else {
            let Some(two) = pair_within(&draft[..], r, n - k) else {
                let _ = copy(&draft[..], r, n - k, &mut out[k..]);
                return;
            };
            put_four(out, k, chars::encode(two).bytes);
            k += 4;
            if k == n {
                return;
            }
            i = r + 6;
        }
    }
}
