ghost use Rattle.std.specs.Prelude.{◌+◌, ◌<◌, ◌≤◌, length};
ghost use Rattle.reading.specs.Heads.{HeadAt};
ghost use Rattle.reading.specs.Ends.{EndOf, EndOfAll, EndWord, EndsFrom};
ghost use Rattle.reading.specs.Saying.{Said};

use super::head::Head;

// A function takes at most so many arguments.
pub const MAX_ARGS: u8 = 8;

// The head of the expression that stands at a place, if its bytes are there.
pub fn head_at(bytes: &[u8], at: usize) -> Option<Head>
    ensures { HeadAt bytes.now at result }
{
    if at >= bytes.len() {
        return None;
    }
    let left = bytes.len() - at;
    match bytes[at] {
        0 if left >= 2 => Some(Head::Var(bytes[at + 1])),
        1 => Some(Head::Leaf),
        2 => Some(Head::Node),
        3 if left >= 2 => Some(Head::Parts(bytes[at + 1])),
        4 => Some(Head::Bind),
        5 if left >= 3 => Some(Head::Call(bytes[at + 1], bytes[at + 2])),
        _ => None,
    }
}

// A script, and a table with a word for each of its places, perhaps not yet filled: where the expression there ends, or 0.
// How far it is right stands in clauses: it goes on while the table is filled, and a ghost field can't keep a fact that is data, as `EndOf` is.
#[derive(Clone, Copy, Debug, PartialEq)]
pub struct EndTable<'a> {
    pub bytes: &'a [u8],
    pub ends: &'a [u32],
    ghost within: { length bytes.now ≤ length ends.now },
}

impl EndTable<'_> {
    // What the table says of a place: where an expression ends, or that none stands there.
    pub(crate) fn said_end(&self, at: usize) -> Option<usize>
        ensures { Said self.now.bytes.now self.now.ends.now at result }
    {
        if at >= self.bytes.len() {
            return None;
        }
        let end = self.ends[at] as usize;
        if end == 0 { None } else { Some(end) }
    }

    // Where the expression at a place ends, by the table, which is right from there on.
    pub fn known_end(&self, at: usize) -> Option<usize>
        requires { EndsFrom self.now.bytes.now self.now.ends.now at }
        ensures { EndOf self.now.bytes.now at result }
    {
        self.said_end(at)
    }

    // Where n expressions that stand one after the other from a place on end.
    fn end_of_all(&self, at: usize, n: u8) -> Option<usize>
        requires at_within { at ≤ length self.now.bytes.now }
        requires known { EndsFrom self.now.bytes.now self.now.ends.now at }
        ensures { EndOfAll self.now.bytes.now n at result }
    {
        let mut end = at;
        for _i in 0..n {
            end = self.known_end(end)?;
        }
        Some(end)
    }

    // Where the expression at a place ends, by the table, which is right after that place.
    fn end_at(&self, at: usize) -> Option<usize>
        requires { EndsFrom self.now.bytes.now self.now.ends.now (at + 1) }
        ensures { EndOf self.now.bytes.now at result }
    {
        let head = head_at(self.bytes, at)?;
        let n = head.arity();
        if n <= MAX_ARGS {
            self.end_of_all(at + head.width(), n)
        } else {
            None
        }
    }

    // The same as a word of the table.
    fn end_word(&self, at: usize) -> u32
        requires few { length self.now.bytes.now ≤ 4096 }
        requires known { EndsFrom self.now.bytes.now self.now.ends.now (at + 1) }
        ensures { EndWord self.now.bytes.now at result }
    {
        self.end_at(at).map_or(0, |end| end as u32)
    }
}

// Fills the table of ends, from the last byte to the first, so that each expression finds its parts' ends there.
// One function with `fill_needs` would need a trait with a ghost fact and a law for each table, over two loops of a line.
pub(crate) fn fill_ends(bytes: &[u8], ends: &mut [u32])
    requires few { length bytes.now ≤ 4096 }
    requires within { length bytes.now ≤ length ends.old }
    ensures { EndsFrom bytes.now ends.new 0 }
{
    for at in (0..bytes.len()).rev() {
        let word = EndTable { bytes, ends }.end_word(at);
        ends[at] = word;
    }
}
