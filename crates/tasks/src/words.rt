ghost use Rattle.std.specs.Prelude.{◌≡◌, ℕ, ◌+◌, ◌-◌, ◌<◌, ◌≤◌, ◌∷◌, ◌++◌, map, length, take, drop, slice_index, All, IfOk};
ghost use Rattle.std.proofs.Math.Option as opt;
ghost use Rattle.sizechange.specs.Graph.{nth};
ghost use Rattle.lang.specs.Program.{node};
ghost use Rattle.lang.specs.Eval.{made};
ghost use Rattle.arena.specs.Nodes.{env, left_of, right_of};
ghost use Rattle.tasks.specs.Stores.{tree_of, frame, room, comes_to, Ready, Moved, Held};

use super::store::{Stop, Store};
use arena::nodes::{LEAF, NodeId};

// A function takes at most so many arguments.
pub const MAX_ARGS: usize = reading::ends::MAX_ARGS as usize;

// A call's arguments; the places after them are not used. How many they are stands in the call's head, so it is not kept here once more.
#[derive(Clone, Copy, Debug, PartialEq)]
pub struct Given(pub [NodeId; MAX_ARGS]);

// Writes numbers at the beginning of words. By a loop: `copy_from_slice` calls `memmove`, and the archive for other languages calls nothing but `memset`.
fn copy_first(words: &mut [u32], given: &[u32])
    requires { length given.now ≤ length words.old }
    ensures { words.new ≡ given.now ++ drop (length given.now) words.old }
{
    for (j, number) in given.iter().enumerate() {
        words[j] = *number;
    }
}

// That a frame is ready stands as a premise: it ties the store to a frame that the caller has.
impl Store<'_> {
    // Variable i, counted from the newest.
    pub fn variable(&self, top: usize, i: u8) -> NodeId
        requires below { i < top }
        requires within { top ≤ length self.now.frames.now }
        ensures there { (base : ℕ) → Ready self.now base top → i < top - base → result.0 ≤ self.now.arena.used }
        ensures is { (base : ℕ) → Ready self.now base top → i < top - base → nth (frame self.now base top) i ≡ opt.some (tree_of self.now result) }
    {
        NodeId(self.frames[top - 1 - i as usize])
    }

    // One more variable.
    pub fn keep(&mut self, top: usize, v: NodeId)
        requires within { top < length self.old.frames.now }
        ensures { (base : ℕ) → Ready self.old base top → v.0 ≤ self.old.arena.used → Held top self.old self.new base (top + 1) (tree_of self.old v ∷ frame self.old base top) }
    {
        self.frames[top] = v.0;
    }

    // Two more variables: the parts of a node.
    pub fn keep_parts(&mut self, top: usize, v: NodeId)
        requires within { top + 1 < length self.old.frames.now }
        requires node { 0 < v.0 }
        requires there { v.0 ≤ self.old.arena.used }
        ensures { (base : ℕ) → Ready self.old base top → Held top self.old self.new base (top + 2) (right_of (tree_of self.old v) ∷ left_of (tree_of self.old v) ∷ frame self.old base top) }
    {
        let (left, right) = self.arena.parts(v);
        self.frames[top] = left.0;
        self.frames[top + 1] = right.0;
    }

    // A node of two trees, if there is room for it.
    pub fn make(&mut self, left: NodeId, right: NodeId) -> Result<NodeId, Stop>
        requires left { left.0 ≤ self.old.arena.used }
        requires right { right.0 ≤ self.old.arena.used }
        ensures moved { (floor : ℕ) → Moved floor self.old self.new }
        ensures there { IfOk result (λ n. n.0 ≤ self.new.arena.used) }
        ensures comes { comes_to self.new result ≡ made (node (tree_of self.old left) (tree_of self.old right)) (room self.old) }
    {
        self.arena.make(left, right).ok_or(Stop::Full)
    }

    // The arguments of a call become the variables of its body, the first the newest.
    pub fn give(&mut self, base: usize, given: Given, n: u8)
        requires few { n ≤ 8 }
        requires within { base + n ≤ length self.old.frames.now }
        ensures { All (λ v. v.0 ≤ self.old.arena.used) given.0 → Held base self.old self.new base (base + n) (map (tree_of self.old) (take n given.0)) }
    {
        let n = n as usize;
        // over all eight, and a return, so that the loop is unrolled: over `0..n.min(MAX_ARGS)` it is not, as rt builds it
        for (j, v) in given.0.iter().enumerate() {
            if j == n {
                return;
            }
            self.frames[base + (n - 1 - j)] = v.0;
        }
    }

    // The numbers that a run begins with become the variables of the first frame.
    pub fn open(&mut self, given: &[u32])
        requires within { length given.now ≤ length self.old.frames.now }
        ensures { ((j : ℕ) → j < length given.now → slice_index given.now j ≤ self.old.arena.used) → Held 0 self.old self.new 0 (length given.now) (env self.old.arena.nodes.now given.now (length given.now)) }
    {
        copy_first(self.frames, given);
    }
}
