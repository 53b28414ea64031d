// Bytes to the front of a part.
ghost use Rattle.std.specs.Prelude.{◌≡◌, ◌++◌, ◌+◌, ◌<◌, ◌≤◌, length, take, drop};

// `N` of the bytes, those at a place, to the same place of the part. They go through an array, so that the compiler makes one load and one
// store of them: without it, it would first ask whether the two overlap.
fn over<const N: usize>(bytes: &[u8], out: &mut [u8], at: usize)
    requires { (at + N ≤ length bytes.now) × (at + N ≤ length out.old) }
    ensures { out.new ≡ take at out.old ++ (take N (drop at bytes.now) ++ drop (at + N) out.old) }
{
    let mut part = [0; N];
    part.copy_from_slice(&bytes[at..at + N]);
    out[at..at + N].copy_from_slice(&part);
}

// Fewer than eight. Four at the front and four at the end may overlap: there the same bytes are written twice. So may the first, the middle
// and the last of fewer, so that the processor has no length of a word to guess.
fn few(bytes: &[u8], out: &mut [u8])
    requires { (length bytes.now < 8) × (length bytes.now ≤ length out.old) }
    ensures { out.new ≡ bytes.now ++ drop (length bytes.now) out.old }
{
    let n = bytes.len();
    if 4 <= n {
        over::<4>(bytes, out, 0);
        over::<4>(bytes, out, n - 4);
        return;
    }
    if n == 0 {
        return;
    }
    let middle = n / 2;
    let last = n - 1;
    let a = bytes[0];
    let b = bytes[middle];
    let c = bytes[last];
    out[0] = a;
    out[middle] = b;
    out[last] = c;
}

// Any number, by a call: eight at once, and the last eight may overlap the ones before them. By hand: of one call of the library for all of
// them the compiler makes `memmove`, which the archive for C would need from outside.
#[inline(never)]
fn long(bytes: &[u8], out: &mut [u8])
    requires { length bytes.now ≤ length out.old }
    ensures { out.new ≡ bytes.now ++ drop (length bytes.now) out.old }
{
    let n = bytes.len();
    if n < 8 {
        few(bytes, out);
        return;
    }
    let last = n - 8;
    let mut k = 0;
    while k < last {
        over::<8>(bytes, out, k);
        k += 8;
    }
    over::<8>(bytes, out, last);
}

// The same for words and data, which are few bytes more often than not: the compiler puts this into its callers, and `long` stays a call. So
// up to sixteen are copied in place, eight at their front and eight at their end.
pub fn front(bytes: &[u8], out: &mut [u8])
    requires { length bytes.now ≤ length out.old }
    ensures { out.new ≡ bytes.now ++ drop (length bytes.now) out.old }
{
    let n = bytes.len();
    if n < 8 {
        few(bytes, out);
    } else if n <= 16 {
        over::<8>(bytes, out, 0);
        over::<8>(bytes, out, n - 8);
    } else {
        long(bytes, out);
    }
}
