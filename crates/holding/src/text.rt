// An entity's text and data into the text buffer.
ghost use Rattle.std.specs.Prelude.{◌≡◌, ◌++◌, ◌+◌, ◌≤◌, length, take, drop};
ghost use Rattle.chars.specs.Stream.{stream_at, clean};
ghost use Rattle.holding.specs.Text.{unchanged};

use crate::copy::front;
use crate::lines::lines;

// Bytes as they are behind the first `used` bytes of the text buffer, whose unused rest is lent on. Most strings have no prefix: that there
// are no bytes is asked first.
pub fn as_it_stands(bytes: &[u8], text: &mut [u8], used: usize)
    requires { used + length bytes.now ≤ length text.old }
    ensures { text.new ≡ take used text.old ++ (bytes.now ++ drop (used + length bytes.now) text.old) }
{
    if !bytes.is_empty() {
        front(bytes, &mut text[used..]);
    }
}

// The same with the bytes of a word, which is seldom empty: nothing is asked first.
pub fn word_as_it_stands(bytes: &[u8], text: &mut [u8], used: usize)
    requires { used + length bytes.now ≤ length text.old }
    ensures { text.new ≡ take used text.old ++ (bytes.now ++ drop (used + length bytes.now) text.old) }
{
    front(bytes, &mut text[used..]);
}

// Clean bytes, at least one, behind the first `used` of the text buffer, whose unused rest is lent on. They take `raw` bytes of the draft:
// where these are as many, they are the draft's own, and need no cleaning. Data that begins with CR LF is what its LF begins: it asks for
// `lines` by itself, so that this stays a call, and the loop of reading stays short. A draft, a place and a length stay apart here, in
// `lines` and in `copy`, since what they promise is about the characters from a place of the whole draft on.
pub fn fill(draft: &[u8], from: usize, n: usize, raw: usize, text: &mut [u8], used: usize)
    requires { (used + n ≤ length text.old) × (length (clean n (stream_at draft.now from)) ≡ n) × unchanged draft.now from n raw
        × (1 ≤ n) }
    ensures { text.new ≡ take used text.old ++ (clean n (stream_at draft.now from) ++ drop (used + n)
        text.old) }
{
    if raw == n {
        front(&draft[from..from + n], &mut text[used..]);
    } else if draft[from] == 0x0D {
        lines(draft, from + 1, n, &mut text[used..]);
    } else {
        lines(draft, from, n, &mut text[used..]);
    }
}
