// Trees through an arena: deep ones, shared ones, and bytes that are none.
#![tactic(auto)]

ghost use Rattle.std.specs.Prelude.{◌≡◌, ◌≤◌, length, take, IfSome};

use arena::nodes::{Arena, LEAF, NodeId, Tree};
use arena::reading::read_trees;
use arena::writing::write_tree;

// Reads one tree and writes it again, where the memory lent suffices.
pub fn copy_tree(
    bytes: &[u8],
    nodes: &mut [u32],
    stack: &mut [u32],
    out: &mut [u8],
) -> Option<usize>
    ensures { IfSome result (λ k. take k out.new ≡ bytes.now) }
{
    let n = bytes.len();
    if n >= 0xffff_ffff || nodes.len() / 2 < n || stack.len() < n {
        return None;
    }
    let _used = read_trees(bytes, 1, nodes, stack)?;
    if n == 0 {
        return None;
    }
    let root = NodeId(stack[0]);
    write_tree(Tree { nodes, root }, stack, out)
}

// A node of a tree twice, of that twice, and so on while there is room: as deep as there are nodes, and twice as large for each.
pub fn double(arena: &mut Arena) -> NodeId
    ensures { result.0 ≤ arena.new.used }
{
    let mut n = LEAF;
    while let Some(m) = arena.make(n, n) {
        n = m;
    }
    n
}

#[cfg(test)]
mod tests {
    use super::*;
    use std::alloc::Global;
    use std::process::Abort;
    use std::test::Fail;

    // The bytes are one tree, and come out as they went in.
    fn goes_through(rt: &impl Abort, heap: Global, bytes: &[u8]) -> Result<(), Fail> {
        let n = bytes.len();
        assert!(rt; 0 < n && n < 0x1000_0000);
        let mut nodes = vec![in heap; 0u32; 2 * n]?;
        let mut stack = vec![in heap; 0u32; n]?;
        let mut out = vec![in heap; 7u8; n]?;
        assert_eq!(rt; copy_tree(bytes, &mut nodes, &mut stack, &mut out), Some(n));
        assert!(rt; out.as_slice() == bytes);
        // one byte less does not do, and nothing is written
        let mut less = vec![in heap; 7u8; n - 1]?;
        assert_eq!(rt; copy_tree(bytes, &mut nodes, &mut stack, &mut less), None);
        for b in &less {
            assert_eq!(rt; *b, 7);
        }
        Ok(())
    }

    // Whether the bytes are so many trees.
    fn reads(rt: &impl Abort, bytes: &[u8], wanted: usize) -> bool {
        let mut nodes = [0u32; 16];
        let mut stack = [0u32; 8];
        assert!(rt; bytes.len() <= 8);
        read_trees(bytes, wanted, &mut nodes, &mut stack).is_some()
    }

    #[test]
    fn deep_to_the_left(rt: HostRuntime) -> Result<(), Fail> {
        let heap = rt.alloc();
        let mut bytes = vec![in heap; 1u8; 100_000]?;
        bytes.resize(200_001, 0)?;
        goes_through(&rt, heap, &bytes)
    }

    #[test]
    fn deep_to_the_right(rt: HostRuntime) -> Result<(), Fail> {
        let heap = rt.alloc();
        let mut bytes = Vec::new(heap);
        for _ in 0..100_000u32 {
            bytes.extend_from_slice(&[1, 0])?;
        }
        bytes.push(0)?;
        goes_through(&rt, heap, &bytes)
    }

    // A tree of 2 ^ 61 - 1 bytes, in sixty nodes.
    #[test]
    fn shared(rt: HostRuntime) {
        let mut words = [0u32; 120];
        let mut stack = [0u32; 60];
        let mut out = [7u8; 1000];
        let nodes = &mut words[..];
        let mut arena = Arena {
            nodes,
            used: 0,
            limit: 60,
        };
        let n = double(&mut arena);
        assert_eq!(rt; n.0, 60);
        assert!(rt; arena.used <= 60);
        assert_eq!(rt; arena.write(n, &mut stack, &mut out), None);
        assert_eq!(rt; out[0], 7);
    }

    #[test]
    fn no_trees(rt: HostRuntime) {
        assert!(rt; reads(&rt, &[], 0));
        assert!(rt; reads(&rt, &[0], 1));
        assert!(rt; reads(&rt, &[1, 0, 0], 1));
        assert!(rt; reads(&rt, &[0, 1, 0, 0, 0], 3));
        // nothing, too little, too much
        assert!(rt; !reads(&rt, &[], 1));
        assert!(rt; !reads(&rt, &[1, 0], 1));
        assert!(rt; !reads(&rt, &[1, 0, 0, 0], 1));
        // another byte
        assert!(rt; !reads(&rt, &[1, 2, 0], 1));
        assert!(rt; !reads(&rt, &[2], 1));
        // a tree more and a tree less than wanted
        assert!(rt; !reads(&rt, &[0, 0, 0], 2));
        assert!(rt; !reads(&rt, &[0, 0, 0], 4));
    }
}
