ghost use Rattle.std.specs.Prelude.{◌≡◌, ◌*◌, ◌^◌, ◌<◌, ◌≤◌, length, MatchOption, ◌≢◌};
ghost use Rattle.arena.specs.Forests.{Read, NoTrees};

// The number of a tree whose first byte is b, with so many nodes: the newest node's, or the leaf's.
fn number(b: usize, used: usize) -> u32
    requires { used < 2 ^ 32 }
    ensures node { b ≡ 1 → result ≡ used }
    ensures leaf { (b ≢ 1) → result ≡ 0 }
{
    if b == 1 { used as u32 } else { 0 }
}

// Reads bytes that are exactly `wanted` trees, from the last byte to the first; the stack then begins with their numbers, the first tree's on top. Says how many nodes there are.
pub fn read_trees(
    bytes: &[u8],
    wanted: usize,
    nodes: &mut [u32],
    stack: &mut [u32],
) -> Option<usize>
    requires nodes { 2 * length bytes.now ≤ length nodes.old }
    requires stack { length bytes.now ≤ length stack.old }
    requires numbered { length bytes.now < 2 ^ 32 }
    ensures { MatchOption result (NoTrees bytes.now wanted) (λ used. Read bytes.now wanted nodes.new used stack.new) }
{
    // nodes and stack are lent, with no heap, so how much of each is used is counted here: the bar is 3 ns a byte, and the same loop in Rust takes 1.6 on random shapes of 65,536 nodes, with `lent::stack::Stack` and so a branch 4.8 or more
    let mut used = 0;
    let mut height = 0;
    // the newest number on the stack, so that it need not be read again
    let mut top = 0;
    for &byte in bytes.iter().rev() {
        let b = byte as usize;
        if b > 1 {
            return None;
        }
        if height < 2 * b {
            return None;
        }
        // a leaf writes a node's words too, which then are not used: a branch on the byte can't be foreseen
        let low = height - 2 * b;
        let right = stack[low];
        let at = 2 * used;
        nodes[at] = top;
        nodes[at + 1] = right;
        used += b;
        top = number(b, used);
        stack[low] = top;
        height = low + 1;
    }
    if height != wanted {
        return None;
    }
    Some(used)
}
