ghost use Rattle.std.specs.Prelude.{◌≡◌, ◌<◌, ◌≤◌, ◌⊎◌, [], ◌∷◌, length, MatchOption};
ghost use Rattle.lang.specs.Bytes.{bytes_of_tree};
ghost use Rattle.arena.specs.Roots.{rooted};
ghost use Rattle.arena.specs.Forests.{Written, Unwritten};
ghost use Rattle.arena.specs.Walks.{Walks, to_come};

use crate::nodes::{LEAF, NodeId, Tree};
use lent::stack::Stack;

// A walk along the bytes of trees: the next tree, and the numbers of those after it, which are lent memory since there is no heap. The next is held apart, so that the memory need be no longer than the root's number.
#[derive(Drop)]
struct Walk<'a, 's> {
    nodes: &'a [u32],
    next: NodeId,
    others: Stack<'s, u32>,
}

impl Walk<'_, '_> {
    // The next byte. After the last leaf the walk stays at it: with a next tree that may be none a byte takes 3.6 to 6.9 ns in place of 2.7 to 6.1, and the bar is 3.
    #[tactic(auto, using(crate::proofs::Trees::leaf_zero))]
    fn step(&mut self) -> u8
        requires { Walks self.old }
        ensures walking { Walks self.new }
        ensures byte { (to_come self.old ≡ result ∷ to_come self.new) ⊎ (to_come self.old ≡ result ∷ []) }
    {
        if self.next == LEAF {
            if let Some(n) = self.others.pop() {
                self.next = NodeId(n);
            }
            return 0;
        }
        let (left, right) = Tree {
            nodes: self.nodes,
            root: self.next,
        }
        .parts(self.next);
        self.others.push(right.0);
        self.next = left;
        1
    }
}

// The first of two numbers that is not the leaf's.
fn first(a: u32, b: u32) -> u32
    ensures second { a ≡ 0 → result ≡ b }
    ensures first { 0 < a → result ≡ a }
{
    if a != 0 { a } else { b }
}

// How many bytes a tree has, unless there are more than `most`: then no more steps are taken. A tree has two bytes for each node and one more, so only nodes are looked at. What comes next is selected, since a branch on a tree's shape can't be foreseen.
// The height stands beside the lent slice, and no Stack, for the select: on large random shapes a byte takes 6.6 ns so, and 9.9 with a Stack and branches; both miss the bar of 3 there.
fn count(tree: Tree<'_>, stack: &mut [u32], most: usize) -> Option<usize>
    requires { tree.root.0 ≤ length stack.old }
    ensures { MatchOption result (most < length (bytes_of_tree (rooted tree.entry))) (λ k. (k ≡ length (bytes_of_tree (rooted tree.entry))) × (k ≤ most)) }
{
    if most == 0 {
        return None;
    }
    if tree.root == LEAF {
        return Some(1);
    }
    let mut top = tree.root.0;
    let mut height = 1;
    // the newest number on the stack, if there is one; read a turn ahead, since the compiler makes a branch of a select from memory
    let mut below = 0;
    let mut k = 1;
    while height > 0 {
        if most - k < 2 {
            return None;
        }
        let (NodeId(left), NodeId(right)) = tree.parts(NodeId(top));
        stack[height - 1] = right;
        top = first(left, first(right, below));
        height = height + left.min(1) as usize + right.min(1) as usize - 1;
        below = stack[height.max(2) - 2];
        k += 2;
    }
    Some(k)
}

// Writes the bytes of a tree at the beginning of `out`, if they fit, and says how many they are.
// That the stack is long enough is a clause, since it ties two arguments.
pub fn write_tree(tree: Tree<'_>, stack: &mut [u32], out: &mut [u8]) -> Option<usize>
    requires { tree.root.0 ≤ length stack.old }
    ensures { MatchOption result (Unwritten (rooted tree.entry) out.old out.new) (λ k. Written (rooted tree.entry) out.old out.new k) }
{
    let size = count(tree, stack, out.len())?;
    let others = Stack::new(stack);
    let mut walk = Walk {
        nodes: tree.nodes,
        next: tree.root,
        others,
    };
    for byte in &mut out[..size] {
        *byte = walk.step();
    }
    Some(size)
}
