//! Edges of a call graph in lent words, eight a row, each found by its hash chain.
#![tactic(auto)]

ghost use Rattle.std.specs.Prelude.{◌≡◌, ℕ, ◌+◌, ◌*◌, ◌/◌, ◌%◌, ◌^◌, ◌<◌, ◌≤◌, List, [], ◌∷◌, ◌++◌, length, ◌≢◌, slice_index};
ghost use Rattle.table.specs.Index.{Added, Chained, bucket_of};
ghost use Rattle.table.specs.Rows.{SameRow, link_at, row_at, rows as list, width};
ghost use Rattle.table.specs.Tables.{Found, FoundAmong, IsChained, IsSameMemory, list_of};

use graphs::Graph;
pub use row::Row;
pub use slice::RowSlice;

mod row;
mod slice;

/// Points of the call graph.
pub const POINTS: u32 = 64;
/// Words of a row.
pub const WIDTH: usize = 8;
// Where in a row its words are.
const ANY_LOW: usize = 0;

const ANY_HIGH: usize = 1;

const PART_LOW: usize = 2;

const PART_HIGH: usize = 3;

const ENDS: usize = 4;

const FROM: usize = 5;

const STEP: usize = 6;

const LINK: usize = 7;
// Odd numbers that spread the edges over the chains.
const SPREAD_ANY: u64 = 0x9E37_79B9_7F4A_7C15;

const SPREAD_PART: u64 = 0xC2B2_AE3D_27D4_EB4F;

const SPREAD_ENDS: u64 = 0x1656_67B1_9E37_79F9;

const HALF: u64 = 0x1_0000_0000;

/// A way from point to point with its size-change graph.
#[derive(Clone, Copy, Debug, PartialEq)]
pub struct Edge {
    pub caller: u32,
    pub callee: u32,
    pub graph: Graph,
}

/// Two words as one.
// by hand, here and in `low` and `high`: std has no conversion between a word and its halves
fn word(low: u32, high: u32) -> u64
    ensures { result ≡ low + high * 2 ^ 32 }
{
    low as u64 + high as u64 * HALF
}

/// The edge of row k; its ends are points, as the row says.
// That a row lies within the words, here and in `row_at` and `put`, is an index's bound and belongs to no type.
pub fn edge_at(rows: &[u32], k: usize) -> Edge
    requires { width * k + width ≤ length rows.now }
    ensures { result ≡ (row_at rows.now k).edge }
{
    let at = WIDTH * k;
    let ends = rows[at + ENDS];
    Edge {
        caller: ends / POINTS % POINTS,
        callee: ends % POINTS,
        graph: Graph {
            any: word(rows[at + ANY_LOW], rows[at + ANY_HIGH]),
            part: word(rows[at + PART_LOW], rows[at + PART_HIGH]),
        },
    }
}

/// Row k.
pub fn row_at(rows: &[u32], k: usize) -> Row
    requires { width * k + width ≤ length rows.now }
    ensures { result ≡ row_at rows.now k }
{
    let at = WIDTH * k;
    Row {
        edge: edge_at(rows, k),
        from: rows[at + FROM],
        step: rows[at + STEP],
    }
}

/// The low half of a word.
fn low(x: u64) -> u32
    ensures { result ≡ x % 2 ^ 32 }
{
    (x % HALF) as u32
}

/// The high half of a word.
fn high(x: u64) -> u32
    ensures { result ≡ x / 2 ^ 32 }
{
    (x / HALF) as u32
}

/// Writes row k and its link.
pub fn put(rows: &mut [u32], k: usize, row: Row, link: u32)
    requires room { width * k + width ≤ length rows.old }
    ensures new { row_at rows.new k ≡ row }
    ensures link { link_at rows.new k ≡ link }
    ensures others { (j : ℕ) → (j ≢ k) → SameRow rows.old rows.new j }
    ensures pushed { list rows.new (k + 1) ≡ list rows.old k ++ row ∷ [] }
{
    let at = WIDTH * k;
    let edge = row.edge;
    rows[at + ANY_LOW] = low(edge.graph.any);
    rows[at + ANY_HIGH] = high(edge.graph.any);
    rows[at + PART_LOW] = low(edge.graph.part);
    rows[at + PART_HIGH] = high(edge.graph.part);
    rows[at + ENDS] = edge.caller * POINTS + edge.callee;
    rows[at + FROM] = row.from;
    rows[at + STEP] = row.step;
    rows[at + LINK] = link;
}

/// The chain of an edge: the high bits of a product, scaled to the number of chains.
fn chain(e: Edge, chains: usize) -> usize
    requires { (0 < chains) × (chains ≤ 2 ^ 32) }
    ensures is { result ≡ bucket_of e chains }
    ensures below { result < chains }
{
    let any = e.graph.any.wrapping_mul(SPREAD_ANY);
    let part = e.graph.part.wrapping_mul(SPREAD_PART);
    let ends = e.caller as u64 * POINTS as u64 + e.callee as u64;
    let mixed = any
        .wrapping_add(part)
        .wrapping_add(ends.wrapping_mul(SPREAD_ENDS));
    ((mixed / HALF) * chains as u64 / HALF) as usize
}

/// The place of an edge among the first `count` rows, whose chains begin at the first `chains` of the heads. Whoever only looks an edge up need not have the words for himself.
pub fn find(rows: &[u32], heads: &[u32], chains: usize, count: usize, e: Edge) -> Option<usize>
    requires room { width * count ≤ length rows.now }
    requires chained { Chained rows.now heads.now chains count }
    ensures { FoundAmong rows.now count e result }
{
    let mut at = heads[chain(e, chains)] as usize;
    while let Some(k) = at.checked_sub(1) {
        if edge_at(rows, k) == e {
            return Some(k);
        }
        at = rows[WIDTH * k + LINK] as usize;
    }
    None
}

/// Empties the first chains.
fn empty(heads: &mut [u32], chains: usize)
    requires { chains ≤ length heads.old }
    ensures { (b : ℕ) → b < chains → slice_index heads.new b ≡ 0 }
{
    heads[..chains].fill(0);
}

/// The first `count` of the rows, each found by its chain; the chains begin at the first `chains` of the heads.
// lent words and numbers beside them, and no Vec or map: where this runs there is no heap
// That it is chained stays a clause: a table just made has no chains, and one of 2^32 rows has a last row that no chain finds. With these two as premises of a fact of the type the methods would ask for them instead.
// That the memory is the same stays one too: it is about the table before and after, and no fact of one value says it.
#[derive(Drop)]
pub struct Table<'a> {
    pub rows: &'a mut [u32],
    pub heads: &'a mut [u32],
    pub chains: usize,
    pub count: usize,
}

impl Table<'_> {
    /// Row k.
    pub fn row(&self, k: usize) -> Row
        requires { width * k + width ≤ length self.now.rows.now }
        ensures { result ≡ row_at self.now.rows.now k }
    {
        row_at(self.rows, k)
    }

    /// The place of an edge among the rows.
    pub fn find(&self, e: Edge) -> Option<usize>
        requires { IsChained self.now }
        ensures { Found self.now e result }
    {
        find(self.rows, self.heads, self.chains, self.count, e)
    }

    /// Adds a row at the end, as the first of its chain.
    /// The row that is one too many for a word to count is not found again.
    fn push(&mut self, row: Row)
        requires chained { IsChained self.old }
        requires room { width * self.old.count + width ≤ length self.old.rows.now }
        requires few { self.old.count < 2 ^ 32 }
        ensures memory { IsSameMemory self.old self.new }
        ensures chained { self.new.count < 2 ^ 32 → IsChained self.new }
        ensures chains { self.new.chains ≡ self.old.chains }
        ensures count { self.new.count ≡ self.old.count + 1 }
        ensures new { row_at self.new.rows.now self.old.count ≡ row }
        ensures others { (j : ℕ) → (j ≢ self.old.count) → row_at self.new.rows.now j ≡ row_at self.old.rows.now j }
        ensures pushed { list_of self.new ≡ list_of self.old ++ row ∷ [] }
    {
        let b = chain(row.edge, self.chains);
        let last = self.heads[b];
        put(self.rows, self.count, row, last);
        self.heads[b] = (self.count as u32).wrapping_add(1);
        self.count += 1;
    }

    /// Adds a row at the end, unless its edge is there.
    pub fn add(&mut self, row: Row)
        requires chained { IsChained self.old }
        requires room { width * self.old.count + width ≤ length self.old.rows.now }
        requires few { self.old.count < 2 ^ 32 }
        ensures memory { IsSameMemory self.old self.new }
        ensures chained { self.new.count < 2 ^ 32 → IsChained self.new }
        ensures chains { self.new.chains ≡ self.old.chains }
        ensures kept { (j : ℕ) → j < self.old.count → row_at self.new.rows.now j ≡ row_at self.old.rows.now j }
        ensures added { Added (list_of self.old) row (list_of self.new) }
        ensures most { (self.old.count ≤ self.new.count) × (self.new.count ≤ self.old.count + 1) }
    {
        if self.find(row.edge).is_none() {
            self.push(row);
        }
    }

    /// Empties the table, for so many chains.
    pub fn clear(&mut self, chains: usize)
        requires some { 0 < chains }
        requires within { chains ≤ length self.old.heads.now }
        requires few { chains ≤ 2 ^ 32 }
        ensures memory { IsSameMemory self.old self.new }
        ensures chained { IsChained self.new }
        ensures empty { (xs : List ℕ) → Chained xs self.new.heads.now chains 0 }
        ensures chains { self.new.chains ≡ chains }
        ensures count { self.new.count ≡ 0 }
        ensures kept { self.new.rows.now ≡ self.old.rows.now }
    {
        empty(self.heads, chains);
        self.chains = chains;
        self.count = 0;
    }

    /// The first `count` rows are the table's now, chained anew by so many chains.
    pub fn rechain(&mut self, count: usize, chains: usize)
        requires room { width * count ≤ length self.old.rows.now }
        requires some { 0 < chains }
        requires within { chains ≤ length self.old.heads.now }
        requires few_chains { chains ≤ 2 ^ 32 }
        requires few { count < 2 ^ 32 }
        ensures memory { IsSameMemory self.old self.new }
        ensures chained { IsChained self.new }
        ensures chains { self.new.chains ≡ chains }
        ensures count { self.new.count ≡ count }
        ensures kept { (j : ℕ) → row_at self.new.rows.now j ≡ row_at self.old.rows.now j }
    {
        self.clear(chains);
        for k in 0..count {
            let row = self.row(k);
            self.push(row);
        }
    }
}
