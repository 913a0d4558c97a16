// Trees as text: read, refused and shown.
#![tactic(auto)]

use arena::nodes::{LEAF, NodeId, Tree};
use arena::reading::read_trees;
use readable::parsing::{Fault, Symbol, parse};
use showing::{Frame, show};

// Shows the tree that the bytes are, where the memory lent suffices.
pub fn show_bytes(
    bytes: &[u8],
    nodes: &mut [u32],
    words: &mut [u32],
    frames: &mut [Frame],
    out: &mut [u8],
) -> Option<usize> {
    let n = bytes.len();
    if n == 0 || n >= 0xffff_ffff {
        return None;
    }
    if nodes.len() / 2 < n || words.len() < n || frames.len() < n {
        return None;
    }
    let _used = read_trees(bytes, 1, nodes, words)?;
    let root = NodeId(words[0]);
    show(Tree { nodes, root }, words, frames, out)
}

#[cfg(test)]
mod tests {
    use super::*;
    use std::alloc::Global;
    use std::process::Abort;
    use std::test::Fail;

    // The text stands for the tree with these bytes.
    fn reads(rt: &impl Abort, text: &[u8], bytes: &[u8]) {
        let mut stack = [Symbol::Item; 64];
        let mut out = [7u8; 64];
        assert_eq!(rt; parse(text, &mut stack, &mut out), Ok(bytes.len()));
        assert!(rt; out.starts_with(bytes));
    }

    // The text is bad at this place.
    fn bad(rt: &impl Abort, text: &[u8], place: usize) {
        let mut stack = [Symbol::Item; 64];
        let mut out = [7u8; 64];
        assert_eq!(rt; parse(text, &mut stack, &mut out), Err(Fault::At(place)));
    }

    // The tree with these bytes is shown as this text.
    fn shows(rt: &impl Abort, bytes: &[u8], text: &[u8]) {
        let mut nodes = [0u32; 64];
        let mut words = [0u32; 32];
        let mut frames = [Frame::Rest(LEAF); 32];
        let mut out = [7u8; 64];
        assert_eq!(rt;
            show_bytes(bytes, &mut nodes, &mut words, &mut frames, &mut out),
            Some(text.len())
        );
        assert!(rt; out.starts_with(text));
    }

    #[test]
    fn reads_each_form(rt: HostRuntime) {
        reads(&rt, b".", &[0]);
        reads(&rt, b"(. .)", &[1, 0, 0]);
        reads(&rt, b"(..)", &[1, 0, 0]);
        reads(&rt, b"[]", &[0]);
        reads(&rt, b"[. .]", &[1, 0, 1, 0, 0]);
        reads(&rt, b"0", &[0]);
        reads(&rt, b"2", &[1, 0, 1, 0, 0]);
        reads(&rt, b"002", &[1, 0, 1, 0, 0]);
        reads(&rt, b" ( 1\n[2]\t) ", &[1, 1, 0, 0, 1, 1, 0, 1, 0, 0, 0]);
    }

    #[test]
    fn says_where_it_is_bad(rt: HostRuntime) {
        bad(&rt, b"", 0);
        bad(&rt, b"(. .", 4);
        bad(&rt, b"(. . .)", 5);
        bad(&rt, b"(.)", 2);
        bad(&rt, b"[.)", 2);
        bad(&rt, b". .", 2);
        bad(&rt, b"1 23", 2);
        bad(&rt, b"[1 x]", 3);
        bad(&rt, b"]", 0);
    }

    #[test]
    fn shows_what_reads_best(rt: HostRuntime) {
        shows(&rt, &[0], b".");
        shows(&rt, &[1, 0, 0], b"1");
        shows(&rt, &[1, 0, 1, 0, 0], b"2");
        shows(&rt, &[1, 1, 0, 0, 0], b"[1]");
        shows(&rt, &[1, 1, 0, 0, 1, 0, 0], b"[1 .]");
        shows(&rt, &[1, 1, 0, 0, 1, 0, 1, 0, 0], b"(1 2)");
        shows(&rt, &[1, 0, 1, 1, 0, 0, 0], b"[. 1]");
    }

    // Goes to bytes and to text again.
    fn comes_back(rt: &impl Abort, heap: Global, text: &[u8], bytes: usize) -> Result<(), Fail> {
        let n = text.len();
        assert!(rt; n < 0x100_0000 && bytes < 0x100_0000);
        let mut stack = vec![in heap; Symbol::Item; n + 2]?;
        let mut out = vec![in heap; 7u8; bytes]?;
        assert_eq!(rt; parse(text, &mut stack, &mut out), Ok(bytes));
        let mut nodes = vec![in heap; 0u32; 2 * bytes]?;
        let mut words = vec![in heap; 0u32; bytes]?;
        let mut frames = vec![in heap; Frame::Rest(LEAF); bytes]?;
        let mut again = vec![in heap; 7u8; n]?;
        assert_eq!(rt;
            show_bytes(&out, &mut nodes, &mut words, &mut frames, &mut again),
            Some(n)
        );
        assert!(rt; again.as_slice() == text);
        Ok(())
    }

    #[test]
    fn deep_and_long(rt: HostRuntime) -> Result<(), Fail> {
        let heap = rt.alloc();
        comes_back(&rt, heap, b"100000", 200_001)?;
        // lists in lists
        let mut deep = vec![in heap; b'['; 50_000]?;
        deep.push(b'1')?;
        deep.resize(100_001, b']')?;
        comes_back(&rt, heap, &deep, 100_003)?;
        // a list of numbers
        let mut long = vec![in heap; b'['; 1]?;
        for _ in 0..50_000u32 {
            long.extend_from_slice(b"2 ")?;
        }
        long.extend_from_slice(b"1]")?;
        comes_back(&rt, heap, &long, 300_005)
    }
}
