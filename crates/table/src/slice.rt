ghost use Rattle.std.specs.Prelude.{◌≡◌, ◌*◌, ◌<◌, ◌≤◌, length};
ghost use Rattle.table.specs.Rows.{row_at, width};

use super::{Edge, Row, edge_at, row_at};

/// The first `count` rows of lent words.
// `count` stands beside the words, which may be more than those of the rows.
#[derive(Clone, Copy, Debug, PartialEq)]
pub struct RowSlice<'a> {
    pub words: &'a [u32],
    pub count: usize,
    pub ghost there: { width * count ≤ length words.now },
}

impl RowSlice<'_> {
    /// The edge of row k.
    pub fn edge(&self, k: usize) -> Edge
        requires { k < self.now.count }
        ensures { result ≡ (row_at self.now.words.now k).edge }
    {
        edge_at(self.words, k)
    }

    /// Row k.
    pub fn row(&self, k: usize) -> Row
        requires { k < self.now.count }
        ensures { result ≡ row_at self.now.words.now k }
    {
        row_at(self.words, k)
    }
}
