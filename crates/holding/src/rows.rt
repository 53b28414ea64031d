// Entities into the list: six numbers to each (docs/LAYOUT.md).
ghost use Rattle.std.specs.Prelude.{◌≡◌, ◌++◌, ◌∷◌, [], ◌+◌, ◌≤◌, length, take, drop};
ghost use Rattle.holding.specs.Kind.{kind_code, Decodes};

// The kinds of entities, each under its number (document 01, "From tokens to entities").
#[derive(Clone, Copy, Debug, PartialEq, Eq)]
pub enum Kind {
    BeginMetacommand = 1,
    EndMetacommand = 2,
    MetacommandToken = 3,
    MetacommandQuoted = 4,
    MetacommandCurly = 5,
    BeginGroup = 6,
    EndGroup = 7,
    Array = 8,
    Number = 9,
    QuotedString = 10,
    CurlyString = 11,
    DefineVariable = 12,
    DefineConstant = 13,
    Get = 14,
    Put = 15,
    Operation = 16,
    End = 17,
}

impl Kind {
    // Its number. A method and no `From`, for `u32::from` of a kind would not say which number.
    pub fn code(self) -> u32
        ensures { result ≡ kind_code self }
    {
        self as u32
    }
}

impl TryFrom<u32> for Kind {
    // The number that no kind has.
    type Error = u32;

    ghost try_from_gives = { Decodes };

    fn try_from(code: u32) -> Result<Self, u32> {
        match code {
            1 => Ok(Kind::BeginMetacommand),
            2 => Ok(Kind::EndMetacommand),
            3 => Ok(Kind::MetacommandToken),
            4 => Ok(Kind::MetacommandQuoted),
            5 => Ok(Kind::MetacommandCurly),
            6 => Ok(Kind::BeginGroup),
            7 => Ok(Kind::EndGroup),
            8 => Ok(Kind::Array),
            9 => Ok(Kind::Number),
            10 => Ok(Kind::QuotedString),
            11 => Ok(Kind::CurlyString),
            12 => Ok(Kind::DefineVariable),
            13 => Ok(Kind::DefineConstant),
            14 => Ok(Kind::Get),
            15 => Ok(Kind::Put),
            16 => Ok(Kind::Operation),
            17 => Ok(Kind::End),
            _ => Err(code),
        }
    }
}

// An entity's six numbers, in their order.
#[derive(Clone, Copy, Debug, PartialEq, Eq)]
pub struct Row {
    // The code of its kind, as the list has it (docs/LAYOUT.md).
    pub kind: u32,
    // The first byte of the token being handled.
    pub place: u32,
    // Where the entity's text begins in the text buffer, and how many bytes it is.
    pub text_at: u32,
    pub text_len: u32,
    // How many bytes of string data stand right behind the text.
    pub data_len: u32,
    // An array's count, else 0.
    pub count: u32,
}

impl Row {
    // An entity with neither text, data nor count.
    pub fn bare(kind: Kind, place: u32, text_at: u32) -> Row
        ensures { result ≡ record {
          kind = kind_code kind;
          place = place;
          text_at = text_at;
          text_len = 0;
          data_len = 0;
          count = 0;
        } }
    {
        Row {
            kind: kind.code(),
            place,
            text_at,
            text_len: 0,
            data_len: 0,
            count: 0,
        }
    }

    // The six numbers at a place of the list.
    #[tactic(auto, using(crate::proofs::Over::six))]
    pub fn write(self, list: &mut [u32], at: usize)
        requires { at + 6 ≤ length list.old }
        ensures { list.new ≡ take at list.old ++ ((self.kind ∷ self.place ∷ self.text_at ∷ self.text_len ∷ self.data_len
            ∷ self.count ∷ []) ++ drop (at + 6) list.old) }
    {
        list[at] = self.kind;
        list[at + 1] = self.place;
        list[at + 2] = self.text_at;
        list[at + 3] = self.text_len;
        list[at + 4] = self.data_len;
        list[at + 5] = self.count;
    }
}
