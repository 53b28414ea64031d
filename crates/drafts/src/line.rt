// A line of standard input: numbers, and bytes in hex.

#![tactic(auto)]

ghost use Rattle.std.specs.Prelude.{◌≤◌, ◌<◌, length, IfSome};

// What a line still has.
#[derive(Drop)]
pub struct Line<'a> {
    rest: &'a [u8],
}

// What a hex digit stands for.
fn digit(b: u8) -> Option<u32>
    ensures { IfSome result (λ d. d < 16) }
{
    match b {
        b'0'..=b'9' => Some(u32::from(b - b'0')),
        b'a'..=b'f' => Some(u32::from(b - b'a') + 10),
        _ => None,
    }
}

// A byte so many times behind the first `held`, as far as there is room; answers how many are held then.
fn put(into: &mut [u8], held: usize, byte: u8, times: u64) -> usize
    requires { held ≤ length into.old }
    ensures { result ≤ length into.new }
{
    let end = held + (times as usize).min(into.len() - held);
    into[held..end].fill(byte);
    end
}

impl<'a> Line<'a> {
    pub fn new(rest: &'a [u8]) -> Line<'a> {
        Line { rest }
    }

    // Passes over what stands before the first byte that stops it, or over all.
    fn pass_to<F: Fn(u8) -> bool>(&mut self, stops: F)
        requires { F.IsAlwaysCallable stops }
        ensures { length self.new.rest.now ≤ length self.old.rest.now }
    {
        let at = self.rest.iter().position(|b| stops(*b));
        self.rest = &self.rest[at.unwrap_or(self.rest.len())..];
    }

    // Takes the decimal digit that comes next.
    fn decimal(&mut self) -> Option<u32>
        ensures fits { IfSome result (λ d. d < 10) }
        ensures goes_on { IfSome result (λ _. length self.new.rest.now < length self.old.rest.now) }
        ensures within { length self.new.rest.now ≤ length self.old.rest.now }
    {
        let (first, rest) = self.rest.split_first()?;
        let d = char::from(*first).to_digit(10)?;
        self.rest = rest;
        Some(d)
    }

    // The next number below 65,530; what stands before it is passed over.
    pub fn number(&mut self) -> u64
        ensures fits { result < 65530 }
        ensures within { length self.new.rest.now ≤ length self.old.rest.now }
    {
        self.pass_to(|b| b.is_ascii_digit());
        let mut value = 0;
        while value < 6553 {
            let Some(d) = self.decimal() else {
                return value;
            };
            value = 10 * value + u64::from(d);
        }
        value
    }

    // Past blanks and `|`, which stand before a line's table and before its last bytes.
    pub fn pass_blanks(&mut self)
        ensures { length self.new.rest.now ≤ length self.old.rest.now }
    {
        self.pass_to(|b| b != b' ' && b != b'|');
    }

    // Takes two digits as a byte, unless what comes next is no digit. A second digit that is none counts 16.
    fn byte(&mut self) -> Option<u8>
        ensures goes_on { IfSome result (λ _. length self.new.rest.now < length self.old.rest.now) }
        ensures within { length self.new.rest.now ≤ length self.old.rest.now }
    {
        let (first, rest) = self.rest.split_first()?;
        let high = digit(*first)?;
        let low = rest.first().and_then(|b| digit(*b)).unwrap_or(16);
        self.rest = rest.get(1..).unwrap_or(&[]);
        Some(((16 * high + low) % 256) as u8)
    }

    // How often the byte before stands there: `*3` says three times, and what follows it is passed over. So is a `.` alone.
    fn times(&mut self) -> u64
        ensures { length self.new.rest.now ≤ length self.old.rest.now }
    {
        match self.rest {
            [b'*', ..] => {
                let n = self.number();
                self.rest = self.rest.get(1..).unwrap_or(&[]);
                n
            }
            [b'.', rest @ ..] => {
                self.rest = rest;
                1
            }
            _ => 1,
        }
    }

    // The bytes that come next, two digits to each: `28*64.20.7c3b` is 64 times 28, then 20 7c 3b. They end at what is no digit.
    // Answers how many there was room for.
    pub fn bytes(&mut self, into: &mut [u8]) -> usize
        ensures room { result ≤ length into.new }
        ensures within { length self.new.rest.now ≤ length self.old.rest.now }
    {
        let mut held = 0;
        while let Some(byte) = self.byte() {
            let times = self.times();
            held = put(into, held, byte, times);
        }
        held
    }
}
