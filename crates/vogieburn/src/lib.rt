// The library for C (include/vogieburn.h): the calls under the names that C knows, and nothing else.

#![tactic(auto)]

ghost use Rattle.std.specs.Prelude.{◌≡◌};
ghost use Rattle.chars.specs.Limits.{limits};
ghost use Rattle.reading.specs.Reading.{reading as reading_of};
ghost use Rattle.checking.specs.Checking.{checking as checking_of};
ghost use Rattle.tokens.specs.Tail.{tail as tail_of};
ghost use Rattle.tokens.specs.Step.{stepped};
ghost use Rattle.tail.specs.Answer.{answer_of as tail_answer};
ghost use Rattle.step.specs.Answer.{answer_of as step_answer};

use reading::Answer;

// Reads a draft into a lent list and a lent text buffer.
#[unsafe(no_mangle)]
pub extern "C" fn vogieburn_read(draft: &[u8], list: &mut [u32], text: &mut [u8]) -> Answer
    ensures value { result ≡ (reading_of limits draft.now list.old text.old).answer }
    ensures list_after { list.new ≡ (reading_of limits draft.now list.old text.old).list }
    ensures text_after { text.new ≡ (reading_of limits draft.now list.old text.old).text }
{
    reading::read(&draft[..], list, text)
}

// Reads a draft likewise, and checks it against a lent table of operations. Here reading has one caller, `vogieburn_read`, so the compiler
// puts it in there, and its answer is written where C wants it and not copied.
#[unsafe(no_mangle)]
pub extern "C" fn vogieburn_check(
    draft: &[u8],
    list: &mut [u32],
    text: &mut [u8],
    table: &[u8],
) -> Answer
    ensures value { result ≡ (checking_of limits draft.now list.old text.old table.now).answer }
    ensures list_after { list.new
        ≡ (checking_of limits draft.now list.old text.old table.now).list }
    ensures text_after { text.new
        ≡ (checking_of limits draft.now list.old text.old table.now).text }
{
    let mut operations = [0u32; 1792];
    if !table::judge(table, &mut operations) {
        return checking::unsound(list, text);
    }
    let a = vogieburn_read(draft, list, text);
    checking::checked(a, list, text, table, &operations)
}

// Whether only whitespace follows a place of a draft.
#[unsafe(no_mangle)]
pub extern "C" fn vogieburn_tail(draft: &[u8], place: u64) -> tail::Answer
    ensures { result ≡ tail_answer (tail_of limits draft.now place) }
{
    tail::tail(draft, place as usize)
}

// The token from a place of a draft on, and the place reached.
#[unsafe(no_mangle)]
pub extern "C" fn vogieburn_step(draft: &[u8], place: u64) -> step::Answer
    ensures { result ≡ step_answer place (stepped limits draft.now place) }
{
    step::step_at(draft, place as usize)
}
