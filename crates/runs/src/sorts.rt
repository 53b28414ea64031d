// What a byte can be where no token has begun, and behind a token's first.

// What a byte begins where no token has begun, under its number in specs/Bytes.antt, `begins_of`.
#[derive(Clone, Copy, Debug, PartialEq, Eq)]
pub enum Begins {
    // It is illegal or not US-ASCII.
    Nothing = 0,
    Whitespace = 1,
    Comment = 2,
    // One of ( ) [ ] , % ; which are tokens alone.
    Atomic = 3,
    // A string.
    Opening = 4,
    // `|`, which may begin the last token.
    Bar = 5,
    // Any other token.
    Word = 6,
    // `}`, which is a token alone too.
    RightCurly = 7,
}

// What a byte is behind a token's first, under its number in specs/Bytes.antt, `ends_of`.
#[derive(Clone, Copy, Debug, PartialEq, Eq)]
pub enum Ends {
    // It is illegal or not US-ASCII.
    Illegal = 0,
    // It ends the token, and is left out of it.
    Exclusive = 1,
    // It opens a string, whose prefix the token is.
    Inclusive = 2,
    // It goes on with the token.
    GoesOn = 3,
}
