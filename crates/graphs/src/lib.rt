//! Size-change graphs between eight places, in two words of 64 bits.
#![tactic(auto)]

ghost use Rattle.std.specs.Prelude.{◌≡◌, ℕ, ◌+◌, ◌*◌, ◌<◌, min, List, [], ◌∷◌, ◌++◌, Decides};
ghost use Rattle.std.specs.Int.{bit_at};
ghost use Rattle.graphs.specs.How.{how_of};
ghost use Rattle.graphs.specs.Words.{Through, Words, places};
ghost use Rattle.sizechange.specs.Graph.{Arc, Idempotent, compose, leads};

/// Places that a graph leads between.
pub const PLACES: u32 = 8;

// The arcs from the first place, those to the first place, and those from each place to itself.
const ROW: u64 = 0xff;

const COLUMN: u64 = 0x0101_0101_0101_0101;

const DIAGONAL: u64 = 0x8040_2010_0804_0201;

/// What an arc leads to: the same, or a part of it.
#[derive(Clone, Copy, Debug, PartialEq)]
pub enum How {
    Same,
    Part,
}

/// A size-change graph: bit `PLACES * i + j` says that place i leads to place j, and in `part` that it leads to a part.
#[derive(Clone, Copy, Debug, PartialEq)]
pub struct Graph {
    pub any: u64,
    pub part: u64,
}

/// From i to k in x, and on from k to j in y.
fn through(x: u64, y: u64, k: u32) -> u64
    requires { k < places }
    ensures { (i j : ℕ) → i < places → j < places → bit_at result (places * i + j) ≡ min (bit_at x (places * i + k)) (bit_at y (places * k + j)) }
{
    ((x >> k) & COLUMN) * ((y >> (PLACES * k)) & ROW)
}

/// From i to j through any place.
fn product(x: u64, y: u64) -> u64
    ensures { Through places x y result }
{
    let mut all = 0;
    for k in 0..PLACES {
        all |= through(x, y, k);
    }
    all
}

impl Graph {
    /// No place leads anywhere.
    pub fn none() -> Graph
        ensures { Words result [] }
    {
        Graph { any: 0, part: 0 }
    }

    /// With one arc more.
    pub fn with_arc(self, from: u32, to: u32, how: How) -> Graph
        requires from { from < places }
        requires to { to < places }
        ensures { (as₁ : List Arc) → Words self as₁ → Words result (as₁ ++ record { from = from; to = to; how = how_of how } ∷ []) }
    {
        let arc = 1u64 << (PLACES * from + to);
        let part = match how {
            How::Same => 0,
            How::Part => arc,
        };
        Graph {
            any: self.any | arc,
            part: self.part | part,
        }
    }

    /// Composition: this graph, and then the next.
    pub fn then(self, next: Graph) -> Graph
        ensures { (as₁ bs : List Arc) → Words self as₁ → Words next bs → Words result (compose as₁ bs) }
    {
        Graph {
            any: product(self.any, next.any),
            part: product(self.part, next.any) | product(self.any, next.part),
        }
    }

    /// Gone twice, it leads alike.
    pub fn is_idempotent(self) -> bool
        ensures { (as₁ : List Arc) → Words self as₁ → Decides result (Idempotent as₁) }
    {
        self.then(self) == self
    }

    /// Some place becomes a part of itself.
    pub fn shrinks(self) -> bool
        ensures { (as₁ : List Arc) → Words self as₁ → Decides result ((i : ℕ) × (leads as₁ i i ≡ 2)) }
    {
        self.part & DIAGONAL != 0
    }
}
