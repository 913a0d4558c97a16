ghost use Rattle.table.specs.Ends.{Ends};

use super::Edge;

/// An edge from point to point, one more than the way that it came from (0: none), and the step that was last.
// `from` is a word as it is stored: an Option<u32> has a value more than a word, which `put` would have to refuse.
// The fact stands here and not in `Edge`, since any edge may be looked up.
#[derive(Clone, Copy, Debug, PartialEq)]
pub struct Row {
    pub edge: Edge,
    pub from: u32,
    pub step: u32,
    pub ghost ends: { Ends edge },
}
