// The class of a byte, and runs of bytes of one range of classes: what the loops over blanks and words share.
ghost use Rattle.std.specs.Prelude.{◌≡◌, ◌+◌, ◌-◌, ◌<◌, ◌≤◌, min, length, get_or, drop};
ghost use Rattle.tokens.specs.Runs.{class_of, run as run_of};
ghost use Rattle.tokens.specs.Told.{class_code};

// The classes of bytes, under their numbers in specs/Runs.antt, `class_of`: each loop passes over the bytes of a range of classes.
#[derive(Clone, Copy, Debug, PartialEq, Eq)]
pub enum Class {
    // Nul, CR and all that is not US-ASCII: cleaning decides.
    Foreign = 0,
    // It ends a curly string, and is an atomic character.
    RightCurly = 1,
    // `"` and `{`.
    Opening = 2,
    Backslash = 3,
    // Any other visible character that ends no token.
    Plain = 4,
    // Illegal outside comments and strings.
    Illegal = 5,
    // `#`.
    Comment = 6,
    Atomic = 7,
    // HT and SP.
    Blank = 8,
    Line = 9,
}

impl Class {
    // Its number, for `run`, which goes by ranges of them. The derived order has no contract to show that by.
    fn code(self) -> u8
        ensures { result ≡ class_code self }
    {
        self as u8
    }

    // The class of a byte. What a draft is mostly made of is told by a few comparisons; each way out calls `rare` by itself, so that it
    // stays a call and the comparisons go into the loops.
    fn of(b: u8) -> Class
        ensures { class_code result ≡ class_of b }
    {
        if 0x5D < b {
            if b < 0x7B {
                return Class::Plain;
            }
            return rare(b);
        }
        if 0x3B < b {
            if b < 0x5B {
                return Class::Plain;
            }
            return rare(b);
        }
        if 0x2C < b {
            if b < 0x3B {
                return Class::Plain;
            }
            return rare(b);
        }
        if b == 0x20 {
            return Class::Blank;
        }
        rare(b)
    }
}

// The class of any byte (specs/Runs.antt, class_of); `_` is nul, CR and all that is not US-ASCII. No arm lists two neighbours, since only
// then the compiler makes one table of all the arms, and reads it where it lies.
fn rare(b: u8) -> Class
    ensures { class_code result ≡ class_of b }
{
    match b {
        0x7D => Class::RightCurly,
        0x22 | 0x7B => Class::Opening,
        0x5C => Class::Backslash,
        0x24
        | 0x26
        | 0x2A
        | 0x2E
        | 0x30
        | 0x32
        | 0x34
        | 0x36
        | 0x38
        | 0x3A
        | 0x3C
        | 0x3E
        | 0x40
        | 0x42
        | 0x44
        | 0x46
        | 0x48
        | 0x4A
        | 0x4C
        | 0x4E
        | 0x50
        | 0x52
        | 0x54
        | 0x56
        | 0x58
        | 0x5A
        | 0x5E
        | 0x60
        | 0x62
        | 0x64
        | 0x66
        | 0x68
        | 0x6A
        | 0x6C
        | 0x6E
        | 0x70
        | 0x72
        | 0x74
        | 0x76
        | 0x78
        | 0x7A
        | 0x7C
        | 0x7E => Class::Plain,
        0x21
        | 0x27
        | 0x2B
        | 0x2D
        | 0x2F
        | 0x31
        | 0x33
        | 0x35
        | 0x37
        | 0x39
        | 0x3D
        | 0x3F
        | 0x41
        | 0x43
        | 0x45
        | 0x47
        | 0x49
        | 0x4B
        | 0x4D
        | 0x4F
        | 0x51
        | 0x53
        | 0x55
        | 0x57
        | 0x59
        | 0x5F
        | 0x61
        | 0x63
        | 0x65
        | 0x67
        | 0x69
        | 0x6B
        | 0x6D
        | 0x6F
        | 0x71
        | 0x73
        | 0x75
        | 0x77
        | 0x79 => Class::Plain,
        0x02
        | 0x04
        | 0x06
        | 0x08
        | 0x0C
        | 0x0E
        | 0x10
        | 0x12
        | 0x14
        | 0x16
        | 0x18
        | 0x1A
        | 0x1C
        | 0x1E => Class::Illegal,
        0x01
        | 0x03
        | 0x05
        | 0x07
        | 0x0B
        | 0x0F
        | 0x11
        | 0x13
        | 0x15
        | 0x17
        | 0x19
        | 0x1B
        | 0x1D
        | 0x1F
        | 0x7F => Class::Illegal,
        0x23 => Class::Comment,
        0x28 | 0x2C => Class::Atomic,
        0x25 | 0x29 | 0x3B | 0x5B | 0x5D => Class::Atomic,
        0x09 | 0x20 => Class::Blank,
        0x0A => Class::Line,
        _ => Class::Foreign,
    }
}

// The class of a draft's byte.
pub fn class_at(draft: &[u8], i: usize) -> Class
    requires { i < length draft.now }
    ensures { class_code result ≡ class_of (get_or draft.now i 0) }
{
    Class::of(draft[i])
}

// From `at` on, where bytes whose class is from `low` to `high` end, at `end` at the latest.
#[tactic(auto, using(crate::proofs::Passing::running))]
pub fn run(draft: &[u8], at: usize, end: usize, low: Class, high: Class) -> usize
    requires { (at ≤ end) × (end ≤ length draft.now) }
    ensures { result ≡ at + run_of (class_code low) (class_code high) (end - at) (drop at draft.now) }
{
    for i in at..end {
        let k = class_at(draft, i).code();
        if k < low.code() || high.code() < k {
            return i;
        }
    }
    end
}
