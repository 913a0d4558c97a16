// Trees shown as text: a decimal number, a pair whose second is a number, or a list.
#![tactic(auto)]

ghost use Rattle.std.specs.Prelude.{◌≡◌, ℕ, ◌+◌, ◌^◌, ◌<◌, ◌≤◌, [], ◌∷◌, ◌++◌, length, take, Some, None, IfSome, MatchOption, MatchResult};
ghost use Rattle.lang.specs.Bytes.{bytes_of_tree};
ghost use Rattle.lent.specs.Output.{Appends, Overflows};
ghost use Rattle.arena.specs.Roots.{rooted};
ghost use Rattle.showing.specs.Shown.{decimal, shown, Shows, TooShort};
ghost use Rattle.showing.specs.Numbers.{number_in, number_by, Numbers};
ghost use Rattle.showing.specs.Printers.{to_come, frame_to_come, size, Found, Printing, Framing, Printed, PrintedInto, ShownInto, Overlong};

use arena::nodes::{LEAF, NodeId, Tree};
use itoa::Buffer;
use lent::output::{NoRoom, Output};
use lent::stack::Stack;
use readable::parsing::{Fault, Symbol, parse};

// The number that a node is, if it is one. `values` has a word for each node, as the memory is lent: 0 where its node is none.
fn number_at(n: NodeId, values: &[u32]) -> Option<u32>
    requires { n.0 ≤ length values.now }
    ensures { result ≡ number_in values.now n.0 }
{
    if n == LEAF {
        return Some(0);
    }
    match values[n.0 as usize - 1] {
        0 => None,
        number => Some(number),
    }
}

// The number of a node by its parts and the numbers of the nodes before it.
fn number_of(left: NodeId, right: NodeId, values: &[u32]) -> Option<u32>
    requires there { right.0 ≤ length values.now }
    requires fits { IfSome (number_in values.now right.0) (λ number. number + 1 < 2 ^ 32) }
    ensures { result ≡ number_by left.0 (number_in values.now right.0) }
{
    if left != LEAF {
        return None;
    }
    let number = number_at(right, values)?;
    Some(number + 1)
}

// Which of the nodes up to the root are numbers. An index, since each word is found from those before it.
fn find_numbers(tree: Tree<'_>, values: &mut [u32])
    requires { tree.root.0 ≤ length values.old }
    ensures { Numbers tree.entry.nodes.now tree.entry.root.0 values.new }
{
    for k in 0..tree.root.0 {
        let (left, right) = tree.parts(NodeId(k + 1));
        let number = number_of(left, right, values);
        values[k as usize] = number.unwrap_or(0);
    }
}

// The decimal digits of a number.
fn put_decimal(out: &mut Output<'_>, n: u32) -> Result<(), NoRoom>
    ensures { MatchResult result (λ _. Appends out.old out.new (decimal n)) (λ _. Overflows out.old (decimal n)) }
{
    let mut buffer = Buffer::new();
    out.put_all(buffer.format(n).as_bytes())
}

// A space, a number and the closing bracket of a pair.
fn put_second(out: &mut Output<'_>, n: u32) -> Result<(), NoRoom>
    ensures { MatchResult result (λ _. Appends out.old out.new (32 ∷ (decimal n ++ (41 ∷ [])))) (λ _. Overflows out.old (32 ∷ (decimal n ++ (41 ∷ [])))) }
{
    out.put(b' ')?;
    put_decimal(out, n)?;
    out.put(b')')
}

// What follows an item: the rest of a list, or the second of a pair, which is a number, and the closing bracket.
#[derive(Clone, Copy, Debug, PartialEq)]
pub enum Frame {
    Rest(NodeId),
    Second(NodeId),
}

// The whole tree and its nodes' numbers; what follows the item that is printed; the text so far. An explicit stack, since a tree may be deeper than the native stack is high.
#[derive(Drop)]
struct Printer<'a, 's, 'o> {
    tree: Tree<'a>,
    values: &'a [u32],
    stack: &'a mut Stack<'s, Frame>,
    out: &'a mut Output<'o>,
}

impl Printer<'_, '_, '_> {
    // An item that is a leaf or a number; of any other its opening bracket. The item that comes next, if there is one.
    fn item(&mut self, n: NodeId) -> Result<Option<NodeId>, NoRoom>
        requires { Printing self.old (Some n) }
        ensures { MatchResult result (λ next. Printed (to_come self.old (Some n)) self.old self.new next) (λ _. Overlong (to_come self.old (Some n)) self.old) }
    {
        if n == LEAF {
            self.out.put(b'.')?;
            return Ok(None);
        }
        if let Some(number) = number_at(n, self.values) {
            put_decimal(self.out, number)?;
            return Ok(None);
        }
        self.open(n)
    }

    // The opening bracket of a node that is no number: round before a number from 2 on, else square.
    fn open(&mut self, n: NodeId) -> Result<Option<NodeId>, NoRoom>
        requires printing { Printing self.old (Some n) }
        requires node { 0 < n.0 }
        requires none { number_in self.old.values.now n.0 ≡ None }
        ensures { MatchResult result (λ next. Printed (to_come self.old (Some n)) self.old self.new next) (λ _. Overlong (to_come self.old (Some n)) self.old) }
    {
        let (left, right) = self.tree.parts(n);
        match number_at(right, self.values) {
            Some(number) if number >= 2 => {
                self.out.put(b'(')?;
                self.stack.push(Frame::Second(right));
                Ok(Some(left))
            }
            _ => {
                self.out.put(b'[')?;
                self.stack.push(Frame::Rest(right));
                Ok(Some(left))
            }
        }
    }

    // What follows an item that has ended, by the frame that was on top.
    fn frame(&mut self, frame: Frame) -> Result<Option<NodeId>, NoRoom>
        requires { Framing self.old frame }
        ensures { MatchResult result (λ next. Printed (frame_to_come self.old frame) self.old self.new next) (λ _. Overlong (frame_to_come self.old frame) self.old) }
    {
        match frame {
            Frame::Rest(n) => self.rest(n),
            Frame::Second(n) => {
                let number = number_at(n, self.values).unwrap_or(0);
                put_second(self.out, number)?;
                Ok(None)
            }
        }
    }

    // The end of a list, or its next item.
    fn rest(&mut self, n: NodeId) -> Result<Option<NodeId>, NoRoom>
        requires { Framing self.old (Frame.Rest n) }
        ensures { MatchResult result (λ next. Printed (frame_to_come self.old (Frame.Rest n)) self.old self.new next) (λ _. Overlong (frame_to_come self.old (Frame.Rest n)) self.old) }
    {
        if n == LEAF {
            self.out.put(b']')?;
            return Ok(None);
        }
        let (left, right) = self.tree.parts(n);
        self.out.put(b' ')?;
        self.stack.push(Frame::Rest(right));
        Ok(Some(left))
    }

    // All that is to come from an item on: how long the text then is.
    fn all(&mut self, root: NodeId) -> Result<usize, NoRoom>
        requires printing { Printing self.old (Some root) }
        requires empty { self.old.stack.now.items ≡ [] }
        ensures { MatchResult result (λ k. PrintedInto (to_come self.old (Some root)) self.old self.new k) (λ _. Overlong (to_come self.old (Some root)) self.old) }
    {
        let mut next = Some(root);
        loop {
            next = match next {
                Some(n) => self.item(n)?,
                None => match self.stack.pop() {
                    Some(frame) => self.frame(frame)?,
                    None => return Ok(self.out.len),
                },
            };
        }
    }
}

// The references in a printer have one lifetime, which is named here.
fn print<'a>(
    tree: Tree<'a>,
    values: &'a [u32],
    stack: &'a mut Stack<'_, Frame>,
    out: &'a mut Output<'_>,
) -> Result<usize, NoRoom>
    requires found { Found tree.nodes.now tree.root.0 values.now }
    requires empty { stack.old.items ≡ [] }
    requires room { tree.root.0 ≤ stack.old.capacity }
    requires none { out.old.len ≡ 0 }
    ensures { MatchResult result (λ k. ShownInto (rooted tree.entry) out.old out.new k) (λ _. length out.old.bytes.now < length (shown (rooted tree.entry))) }
{
    let mut printer = Printer {
        tree,
        values,
        stack,
        out,
    };
    printer.all(tree.root)
}

// Shows a tree as text at the beginning of `out`, if it fits, and says how many bytes it is. One word of `values` and one frame for each node are enough; that they are there are clauses, since each ties two arguments.
pub fn show(
    tree: Tree<'_>,
    values: &mut [u32],
    stack: &mut [Frame],
    out: &mut [u8],
) -> Option<usize>
    requires values { tree.root.0 ≤ length values.old }
    requires stack { tree.root.0 ≤ length stack.old }
    ensures { MatchOption result (length out.old < length (shown (rooted tree.entry))) (λ k. Shows (rooted tree.entry) out.new k) }
{
    find_numbers(tree, values);
    let mut stack = Stack::new(stack);
    let mut out = Output::new(out);
    print(tree, values, &mut stack, &mut out).ok()
}

// Shows a tree and reads the text again: its bytes come back, unless memory for its text, for reading it or for the bytes is too short.
pub fn show_and_read(
    tree: Tree<'_>,
    values: &mut [u32],
    frames: &mut [Frame],
    text: &mut [u8],
    symbols: &mut [Symbol],
    out: &mut [u8],
) -> Result<usize, Fault>
    requires values { tree.root.0 ≤ length values.old }
    requires frames { tree.root.0 ≤ length frames.old }
    ensures { MatchResult result (λ n. take n out.new ≡ bytes_of_tree (rooted tree.entry)) (λ f. (f ≡ Fault.Full) × TooShort (rooted tree.entry) (length text.old) (length symbols.old) (length out.old)) }
{
    let Some(k) = show(tree, values, frames, text) else {
        return Err(Fault::Full);
    };
    parse(&text[..k], symbols, out)
}
