ghost use Rattle.std.specs.Prelude.{◌≤◌, length};
ghost use Rattle.reading.specs.Saying.{EndsAt, SaysEnds};

use super::ends::EndTable;

// A script, and a table that says where its expressions end.
#[derive(Clone, Copy, Debug, PartialEq)]
pub struct Expressions<'a> {
    pub bytes: &'a [u8],
    pub ends: &'a [u32],
    ghost table: { length bytes.now ≤ length ends.now },
    ghost ending: { SaysEnds bytes.now ends.now },
}

impl<'a> Expressions<'a> {
    // Where the expression at a place ends, if one stands there.
    pub fn end(&self, at: usize) -> Option<usize>
        ensures { EndsAt self.now.bytes.now at result }
    {
        let table = EndTable {
            bytes: self.bytes,
            ends: self.ends,
        };
        table.said_end(at)
    }
}
