ghost use Rattle.std.specs.Prelude.{◌≡◌};
ghost use Rattle.reading.specs.Heads.{width_of, arity_of};

// The head of an expression, read from its first bytes.
#[derive(Clone, Copy, Debug, PartialEq)]
pub enum Head {
    Var(u8),
    Leaf,
    Node,
    Parts(u8),
    Bind,
    // the function, and how many arguments it is given
    Call(u8, u8),
}

impl Head {
    // How many bytes it has.
    pub fn width(self) -> usize
        ensures { result ≡ width_of self }
    {
        match self {
            Head::Leaf | Head::Node | Head::Bind => 1,
            Head::Var(_) | Head::Parts(_) => 2,
            Head::Call(_, _) => 3,
        }
    }

    // How many expressions follow it.
    pub fn arity(self) -> u8
        ensures { result ≡ arity_of self }
    {
        match self {
            Head::Var(_) | Head::Leaf => 0,
            Head::Node | Head::Parts(_) | Head::Bind => 2,
            Head::Call(_, n) => n,
        }
    }
}
