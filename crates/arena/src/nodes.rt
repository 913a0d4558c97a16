ghost use Rattle.std.specs.Prelude.{◌≡◌, ◌+◌, ◌*◌, ◌^◌, ◌<◌, ◌≤◌, true, false, length, MatchOption};
ghost use Rattle.lang.specs.Program.{leaf, node};
ghost use Rattle.arena.specs.Nodes.{tree, Sound, Parts, Grown, Well, left_of, right_of, IsNode};
ghost use Rattle.arena.specs.Forests.{Written, Unwritten};

use crate::writing::write_tree;

// The number of a tree: 0 is the leaf, the others are nodes. A word and no Box, since there is no heap and trees share their parts; and no enum, which would take two of the lent words.
#[derive(Clone, Copy, Debug, PartialEq)]
pub struct NodeId(pub u32);

pub const LEAF: NodeId = NodeId(0);

// A tree among nodes that other trees may share: all nodes of it stand in the words.
#[derive(Clone, Copy, Debug, PartialEq)]
pub struct Tree<'a> {
    pub nodes: &'a [u32],
    pub root: NodeId,
    pub ghost sound: { Sound nodes.now root.0 },
}

impl Tree<'_> {
    // The parts of a node whose number is no larger than the root's, as those of the tree's own nodes are.
    pub fn parts(self, n: NodeId) -> (NodeId, NodeId)
        requires node { 0 < n.0 }
        requires there { n.0 ≤ self.root.0 }
        ensures { Parts self.entry.nodes.now n.0 result.0.0 result.1.0 }
    {
        let at = 2 * (n.0 as usize - 1);
        (NodeId(self.nodes[at]), NodeId(self.nodes[at + 1]))
    }
}

// Writes a node behind the `used` that there are: a function over words for those who have no arena.
pub fn put_node(nodes: &mut [u32], used: usize, left: NodeId, right: NodeId) -> NodeId
    requires sound { Sound nodes.old used }
    requires room { 2 * used + 2 ≤ length nodes.old }
    requires numbered { used + 1 < 2 ^ 32 }
    requires left { left.0 ≤ used }
    requires right { right.0 ≤ used }
    ensures number { result.0 ≡ used + 1 }
    ensures grown { Grown nodes.old used nodes.new (used + 1) }
    ensures made { tree nodes.new (used + 1) ≡ node (tree nodes.old left.0) (tree nodes.old right.0) }
{
    let at = 2 * used;
    nodes[at] = left.0;
    nodes[at + 1] = right.0;
    NodeId((used + 1) as u32)
}

// Nodes in lent words, of which some are used: with no heap, their number stands beside the words.
#[derive(Drop)]
pub struct Arena<'a> {
    pub nodes: &'a mut [u32],
    pub used: usize,
    // how many nodes there may be
    pub limit: usize,
    pub ghost well: { Well nodes.now used limit },
}

// That a number is among those used stays a clause: it ties a number to an arena.
impl Arena<'_> {
    ghost use Rattle.arena.specs.Arenas.{words, Full, Made};

    // A node of two trees, unless all the room is used.
    pub fn make(&mut self, left: NodeId, right: NodeId) -> Option<NodeId>
        requires left { left.0 ≤ self.old.used }
        requires right { right.0 ≤ self.old.used }
        ensures limit { self.new.limit ≡ self.old.limit }
        ensures cases { MatchOption result (Full self.old self.new) (λ n. Made self.old self.new left.0 right.0 n.0) }
    {
        if self.used >= self.limit {
            return None;
        }
        let used = self.used;
        let n = put_node(self.nodes, used, left, right);
        self.used = used + 1;
        Some(n)
    }

    pub fn is_leaf(&self, n: NodeId) -> bool
        requires { n.0 ≤ self.now.used }
        ensures leaf { result ≡ true → tree (words self.now) n.0 ≡ leaf }
        ensures number { result ≡ false → 0 < n.0 }
        ensures node { result ≡ false → IsNode (tree (words self.now) n.0) }
    {
        n == LEAF
    }

    // The tree of a number.
    fn tree(&self, n: NodeId) -> Tree<'_>
        requires { n.0 ≤ self.now.used }
        ensures nodes { result.nodes.now ≡ words self.now }
        ensures root { result.root ≡ n }
    {
        Tree {
            nodes: self.nodes,
            root: n,
        }
    }

    // The parts of a node.
    pub fn parts(&self, n: NodeId) -> (NodeId, NodeId)
        requires node { 0 < n.0 }
        requires there { n.0 ≤ self.now.used }
        ensures left_smaller { result.0.0 < n.0 }
        ensures left { tree (words self.now) result.0.0 ≡ left_of (tree (words self.now) n.0) }
        ensures right_smaller { result.1.0 < n.0 }
        ensures right { tree (words self.now) result.1.0 ≡ right_of (tree (words self.now) n.0) }
    {
        self.tree(n).parts(n)
    }

    // Writes the bytes of a tree at the beginning of `out`, if they fit, and says how many they are.
    pub fn write(&self, root: NodeId, stack: &mut [u32], out: &mut [u8]) -> Option<usize>
        requires there { root.0 ≤ self.now.used }
        requires stack { root.0 ≤ length stack.old }
        ensures { MatchOption result (Unwritten (tree (words self.now) root.0) out.old out.new) (λ k. Written (tree (words self.now) root.0) out.old out.new k) }
    {
        write_tree(self.tree(root), stack, out)
    }
}
