// What is kept between tokens.
ghost use Rattle.std.specs.Prelude.{◌≡◌, eqb};
ghost use Rattle.entities.specs.Stepping.{bracketed, commanded};

// How the next token is read: as a token of regular mode, so right behind `[`, or inside a metacommand.
#[derive(Clone, Copy, Debug, PartialEq, Eq)]
pub enum Mode {
    Regular,
    Bracket,
    Metacommand,
}

// The mode of any number: 1 is right behind `[`, 2 in a metacommand, and every other number regular mode.
impl From<usize> for Mode {
    ghost from_gives = { λ number mode. (bracketed mode ≡ eqb number 1) × (commanded mode ≡ eqb number 2) };

    fn from(number: usize) -> Mode {
        match number {
            1 => Mode::Bracket,
            2 => Mode::Metacommand,
            _ => Mode::Regular,
        }
    }
}

// What the tokens so far leave open, and what is held of them. What is asked of it, `Steady` and `Ready` of specs/Stepping.antt, is
// about the lent buffers too, so that it is no invariant of the type.
#[derive(Clone, Copy, Debug, PartialEq, Eq)]
pub struct State {
    pub mode: Mode,
    // How many groups are open.
    pub depth: usize,
    // How many entities the list holds, and how many bytes the text buffer. Both are lent by C: what is held of them is counted here.
    pub entities: usize,
    pub text: usize,
}
