ghost use Rattle.std.specs.Prelude.{◌≡◌, ◌-◌, ◌<◌, ◌≤◌, List, ◌++◌, length};
ghost use Rattle.graphs.specs.Words.{Words, places};
ghost use Rattle.lang.specs.Program.{max_args};
ghost use Rattle.lang.specs.Steps.{arc, given, known as of_variable, part};
ghost use Rattle.origins.specs.Origins.{in_view, origin_from, origin_of, word_of};
ghost use Rattle.sizechange.specs.Graph.{Arc};

use graphs::{Graph, How, PLACES};

/// Where a variable comes from: that is not known, or it is an argument, or a part of one.
#[derive(Clone, Copy, Debug, PartialEq)]
pub enum Origin {
    Unknown,
    Same(u32),
    Part(u32),
}

/// From a lent word: 0 where nothing is known, else one more than twice the argument, and one more for a part of it.
impl From<u32> for Origin {
    ghost from_gives = { λ word origin. origin ≡ origin_of word };

    fn from(word: u32) -> Origin {
        match word.checked_sub(1) {
            None => Origin::Unknown,
            Some(n) if n % 2 == 0 => Origin::Same(n / 2),
            Some(n) => Origin::Part(n / 2),
        }
    }
}

impl From<Origin> for u32 {
    ghost from_gives = { λ origin word. word ≡ word_of origin };

    fn from(origin: Origin) -> u32 {
        match origin {
            Origin::Unknown => 0,
            Origin::Same(argument) => 2 * (argument % PLACES) + 1,
            Origin::Part(argument) => 2 * (argument % PLACES) + 2,
        }
    }
}

impl Origin {
    /// Of the parts of what has this origin.
    pub fn part(self) -> Origin
        ensures { origin_from result ≡ part (origin_from self) }
    {
        match self {
            Origin::Unknown => Origin::Unknown,
            Origin::Same(argument) | Origin::Part(argument) => Origin::Part(argument),
        }
    }

    /// The graph with the arc to argument `to` that a value of this origin gives.
    pub fn lead(self, graph: Graph, to: u32) -> Graph
        requires { to < places }
        ensures { (as₁ : List Arc) → Words graph as₁ → Words result (as₁ ++ arc to (origin_from self)) }
    {
        match self {
            Origin::Unknown => graph,
            Origin::Same(from) => graph.with_arc(from % PLACES, to, How::Same),
            Origin::Part(from) => graph.with_arc(from % PLACES, to, How::Part),
        }
    }
}

/// The origin of variable i of those in view, counted from the newest, which has the last word.
pub fn origin_at(known: &[u32], i: u32) -> Origin
    requires { i < length known.now }
    ensures { origin_from result ≡ of_variable (in_view known.now (length known.now)) i }
{
    Origin::from(known[known.len() - 1 - i as usize])
}

/// At the start of a body the arguments are in view, the first as the newest.
pub fn give(known: &mut [u32], args: u32)
    requires few { args ≤ max_args }
    requires within { args ≤ length known.old }
    ensures { in_view known.new args ≡ given 0 args }
{
    for (k, word) in known[..args as usize].iter_mut().enumerate() {
        *word = u32::from(Origin::Same(args - 1 - k as u32));
    }
}
