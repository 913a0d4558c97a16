//! All the ways along a call graph, breadth-first in lent words, and the first without the reason.
#![tactic(auto)]

ghost use Rattle.std.specs.Prelude.{◌≡◌, ℕ, ◌+◌, ◌*◌, ◌^◌, ◌<◌, ◌≤◌, true, false, length, MatchOption, MatchResult};
ghost use Rattle.closure.specs.Answers.{ClosedBy, DecidesReason, FirstFailing};
ghost use Rattle.closure.specs.Parts.{Advanced, Entered, Kept, Linked, Open, Ready, Room};
ghost use Rattle.closure.specs.Ways.{Fails, Sound};
ghost use Rattle.table.specs.Index.{Added};
ghost use Rattle.table.specs.Ends.{points};
ghost use Rattle.table.specs.Rows.{row_at, rows, width};
ghost use Rattle.table.specs.Tables.{IsChained, IsSameMemory, list_of};

use table::{Edge, POINTS, Row, RowSlice, Table};

// How many times as many ways there may be before they are chained anew: all the chaining is then linear in the ways.
const GROWTH: usize = 4;

/// There are more ways than allowed.
#[derive(Clone, Copy, Debug, PartialEq)]
pub struct TooMany;

/// Adds a way, unless its edge is there.
// `limit` stands beside the table here and below: in a struct around both, which was tried, the proof loses what the lent words hold at the end.
// So that the table is open is a clause, and so is that its memory is the same, which is about the table before and after.
fn add_way(table: &mut Table, row: Row, limit: usize) -> Result<(), TooMany>
    requires open { Open table.old limit }
    ensures memory { IsSameMemory table.old table.new }
    ensures kept { Kept table.old.rows.now table.old.count table.new.rows.now }
    ensures added { Added (list_of table.old) row (list_of table.new) }
    ensures most { (table.old.count ≤ table.new.count) × (table.new.count ≤ table.old.count + 1) }
    ensures fits { MatchResult result (λ _. Open table.new limit) (λ _. limit < table.new.count) }
{
    table.add(row);
    if table.count > limit {
        Err(TooMany)
    } else {
        Ok(())
    }
}

/// Chains the ways anew, by as many chains as so many ways take: no others are emptied, whatever there is room for.
fn chain_for(table: &mut Table, ways: usize)
    requires room { width * table.old.count ≤ length table.old.rows.now }
    requires heads { (0 < length table.old.heads.now) × (length table.old.heads.now ≤ 2 ^ 32) }
    requires few { (table.old.count < 2 ^ 32) × (ways < 2 ^ 32) }
    ensures memory { IsSameMemory table.old table.new }
    ensures chained { IsChained table.new }
    ensures count { table.new.count ≡ table.old.count }
    ensures kept { (j : ℕ) → row_at table.new.rows.now j ≡ row_at table.old.rows.now j }
{
    let chains = (2 * ways + 64).min(table.heads.len());
    let count = table.count;
    table.rechain(count, chains);
}

/// Enters the steps as ways, those that lead alike once.
fn enter_steps(steps: &RowSlice, table: &mut Table, limit: usize) -> Result<(), TooMany>
    requires few { steps.now.count < 2 ^ 32 }
    requires open { Open table.old limit }
    requires empty { table.old.count ≡ 0 }
    ensures memory { IsSameMemory table.old table.new }
    ensures entered { Entered (rows steps.now.words.now steps.now.count) steps.now.count limit table.new.rows.now table.new.count }
    ensures fits { MatchResult result (λ _. Open table.new limit) (λ _. limit < table.new.count) }
{
    for step in 0..steps.count {
        let row = Row {
            edge: steps.edge(step),
            from: 0,
            step: step as u32,
        };
        add_way(table, row, limit)?;
    }
    Ok(())
}

/// The steps of each caller in their order: the first of each, and after each the next of the same.
#[derive(Clone, Copy)]
struct Links<'a> {
    starts: &'a [u32],
    nexts: &'a [u32],
}

impl Links<'_> {
    /// The step that a word says, if it says one: the words hold no Option, and one that is not below their number is none.
    fn said_step(&self, word: u32) -> Option<usize>
        ensures { MatchOption result (length self.now.nexts.now ≤ word) (λ step. (step ≡ word) × (step < length self.now.nexts.now)) }
    {
        let step = word as usize;
        if step < self.nexts.len() {
            Some(step)
        } else {
            None
        }
    }
}

/// Links the steps of each caller in their order: the steps are the first rows, one for each word of `nexts`.
fn link_steps(table: &Table, starts: &mut [u32], nexts: &mut [u32])
    requires rows { width * length nexts.old ≤ length table.now.rows.now }
    requires few { length nexts.old < 2 ^ 32 }
    requires points { length starts.old ≡ points }
    ensures { Linked 0 (length nexts.new) table.now.rows.now starts.new nexts.new }
{
    let first = nexts.len();
    starts.fill(first as u32);
    for step in (0..first).rev() {
        let caller = table.row(step).edge.caller as usize;
        nexts[step] = starts[caller];
        starts[caller] = step as u32;
    }
}

/// Way k and then each step that begins where it ends, in their order.
fn follow(table: &mut Table, links: &Links, k: usize, limit: usize) -> Result<(), TooMany>
    requires ready { Ready table.old links.now limit }
    requires here { k < table.old.count }
    ensures advanced { Advanced links.now limit k (k + 1) table.old table.new }
    ensures fits { MatchResult result (λ _. Ready table.new links.now limit) (λ _. limit < table.new.count) }
{
    let way = table.row(k).edge;
    let mut next = links.starts[way.callee as usize];
    while let Some(step) = links.said_step(next) {
        let last = table.row(step);
        let edge = Edge {
            caller: way.caller,
            callee: last.edge.callee,
            graph: way.graph.then(last.edge.graph),
        };
        let row = Row {
            edge,
            from: (k + 1) as u32,
            step: last.step,
        };
        add_way(table, row, limit)?;
        next = links.nexts[step];
    }
    Ok(())
}

/// Chains the ways anew, for `GROWTH` times as many, once there are more than there were chains for;
/// gives how many there are chains for.
fn keep_chained(table: &mut Table, enough: usize, limit: usize) -> usize
    requires open { Open table.old limit }
    ensures memory { IsSameMemory table.old table.new }
    ensures open { Open table.new limit }
    ensures count { table.new.count ≡ table.old.count }
    ensures kept { (j : ℕ) → row_at table.new.rows.now j ≡ row_at table.old.rows.now j }
{
    if table.count <= enough {
        return enough;
    }
    let more = (GROWTH * table.count).min(limit);
    chain_for(table, more);
    more
}

/// Each way and then each step that fits, in the order of the table, which grows.
fn extend(table: &mut Table, links: &Links, limit: usize) -> Result<(), TooMany>
    requires ready { Ready table.old links.now limit }
    ensures advanced { Advanced links.now limit 0 table.new.count table.old table.new }
    ensures fits { MatchResult result (λ _. table.new.count ≤ limit) (λ _. limit < table.new.count) }
{
    let mut enough = 0;
    let mut k = 0;
    // no `for`: the ways that are added are followed too
    while k < table.count {
        enough = keep_chained(table, enough, limit);
        follow(table, links, k, limit)?;
        k += 1;
    }
    Ok(())
}

/// All ways along the steps, in breadth-first order; room for `limit` ways and one more.
pub fn all_ways(
    steps: &RowSlice,
    limit: usize,
    ways: &mut [u32],
    scratch: &mut [u32],
) -> Result<usize, TooMany>
    requires few { steps.now.count < 2 ^ 32 }
    requires room { Room limit (length ways.old) }
    requires scratch { (points + steps.now.count < length scratch.old) × (length scratch.old ≤ 2 ^ 32) }
    ensures { ClosedBy (rows steps.now.words.now steps.now.count) limit ways.new result }
{
    let (starts, rest) = scratch.split_at_mut(POINTS as usize);
    let (nexts, heads) = rest.split_at_mut(steps.count);
    let mut table = Table {
        rows: ways,
        heads,
        chains: 0,
        count: 0,
    };
    chain_for(&mut table, steps.count);
    enter_steps(steps, &mut table, limit)?;
    let (nexts, _) = nexts.split_at_mut(table.count);
    link_steps(&table, starts, nexts);
    extend(&mut table, &Links { starts, nexts }, limit)?;
    Ok(table.count)
}

/// An idempotent loop on which no place becomes a part of itself.
fn fails(e: Edge) -> bool
    ensures fails { result ≡ true → Fails e }
    ensures sound { result ≡ false → Sound e }
{
    if e.caller != e.callee {
        return false;
    }
    e.graph.is_idempotent() && !e.graph.shrinks()
}

/// The first of the ways that fails: there is none exactly if the call graph has the reason.
// A rule of the project: the loop itself yields the way, by `break`.
pub fn first_without_reason(ways: &RowSlice) -> Option<usize>
    ensures first { FirstFailing ways.now.words.now ways.now.count result }
    ensures reason { DecidesReason ways.now.words.now ways.now.count result }
{
    let mut way = 0;
    'look: loop {
        if way >= ways.count {
            break 'look None;
        }
        if fails(ways.edge(way)) {
            break 'look Some(way);
        }
        way += 1;
    }
}
