ghost use Rattle.std.specs.Prelude.{◌≡◌};
ghost use Rattle.readable.specs.Text.{kind};

#[derive(Clone, Copy, Debug, PartialEq)]
pub enum Token {
    Dot,
    Open,
    Close,
    Begin,
    End,
    Number(usize),
}

#[derive(Clone, Copy, Debug, PartialEq)]
pub enum Kind {
    Space,
    Digit(u8),
    Mark(Token),
    Other,
}

impl From<u8> for Kind {
    ghost from_gives = { λ c k. k ≡ kind c };

    fn from(c: u8) -> Kind {
        match c {
            b'0'..=b'9' => Kind::Digit(c - b'0'),
            b'.' => Kind::Mark(Token::Dot),
            b'(' => Kind::Mark(Token::Open),
            b')' => Kind::Mark(Token::Close),
            b'[' => Kind::Mark(Token::Begin),
            b']' => Kind::Mark(Token::End),
            b' ' | b'\t' | b'\n' | b'\r' => Kind::Space,
            _ => Kind::Other,
        }
    }
}
