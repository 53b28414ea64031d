// The refusals of document 01, "Numbers of refusal", by what they are given for.
ghost use Rattle.std.specs.Prelude.{◌≡◌};
ghost use Rattle.chars.specs.Refusal.{number_of};

// Each refusal, under its number.
#[derive(Clone, Copy, Debug, PartialEq, Eq)]
pub enum Refusal {
    // Of cleaning and of tokens.
    DraftTooLong = 1,
    Malformed = 2,
    UnpairedSurrogate = 3,
    Nul = 4,
    CarriageReturn = 5,
    IllegalCharacter = 6,
    DraftEnds = 7,
    TokenTooLong = 8,
    StringTooLong = 9,
    // Of entities.
    PercentInside = 10,
    SemicolonOutside = 11,
    LastInMetacommand = 12,
    LastInGroup = 13,
    NoGroup = 14,
    NoElement = 15,
    NoArray = 16,
    TooManyGroups = 17,
    ListFull = 18,
    TextFull = 19,
    // Of the table and of cells.
    TableUnsound = 20,
    OperationUnknown = 21,
    TooFewCells = 22,
    WrongKind = 23,
    NoCount = 24,
    NameDefined = 25,
    NameUnknown = 26,
    PutToConstant = 27,
    NotOneCell = 28,
    TooManyCells = 29,
    TooManyNames = 30,
    // Of tail.
    PlacePastDraft = 31,
}

impl Refusal {
    // Its number. A method and no `From`, for `u64::from` of a refusal would not say which number.
    pub fn number(self) -> u64
        ensures { result ≡ number_of self }
    {
        self as u64
    }

    // It, at a place.
    pub fn at(self, place: usize) -> Refused
        ensures { result ≡ record { refusal = self; place = place } }
    {
        Refused {
            refusal: self,
            place,
        }
    }
}

// A refusal with its place.
#[derive(Clone, Copy, Debug, PartialEq, Eq)]
pub struct Refused {
    pub refusal: Refusal,
    pub place: usize,
}
