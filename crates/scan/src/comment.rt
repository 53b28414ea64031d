// Comments (Shastina Specification, section 3.1): from `#` up to LF.
ghost use Rattle.std.specs.Prelude.{◌≡◌, ◌<◌, ◌≤◌, IfSome, length};
ghost use Rattle.chars.specs.Stream.{stream_at};
ghost use Rattle.chars.specs.Character.{character_at};
ghost use Rattle.tokens.specs.Runs.{past_comment};

use runs::byte::is_line;
use runs::eight::past_remark;
use wide::{past_wide, past_widths};

// From `at` on, inside a comment, the byte after the LF that ends it, if that is known.
pub fn comment_end(draft: &[u8], at: usize) -> Option<usize>
    requires { at ≤ length draft.now }
    ensures { IfSome result (λ after. (at < after) × (after ≤ length draft.now)
        × (stream_at draft.now after ≡ past_comment (stream_at draft.now at))) }
{
    let mut from = at;
    loop {
        let i = past_remark(draft, from);
        if draft.len() <= i {
            return None;
        }
        let b = draft[i];
        if b == b'\n' {
            return Some(i + 1);
        }
        if b == b'\r' {
            if is_line(draft, i) {
                return Some(i + 2);
            }
            return None;
        }
        if b == 0 {
            return None;
        }
        if b < 0x80 {
            from = i + 1;
        } else {
            from = past_widths(draft, i);
            if from == i {
                let reach = past_wide(&draft[..], i);
                from = reach.after;
                if from == i {
                    return None;
                }
            }
        }
    }
}
