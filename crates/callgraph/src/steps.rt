ghost use Rattle.std.specs.Prelude.{◌≡◌, ℕ, ◌+◌, ◌*◌, ◌^◌, ◌<◌, ◌≤◌, List, ◌++◌, length, drop, Some};
ghost use Rattle.callgraph.specs.Pending.{own};
ghost use Rattle.callgraph.specs.Standing.{StandAll, Standing, StandingAll, Stands};
ghost use Rattle.callgraph.specs.StepRows.{EndsOf, OneStep, StepRows, number};
ghost use Rattle.callgraph.specs.StepTables.{IsSameMemory};
ghost use Rattle.graphs.specs.Words.{Words};
ghost use Rattle.lang.specs.Program.{Expr, Exprs, Prog, max_args};
ghost use Rattle.lang.specs.Reads.{Reads};
ghost use Rattle.lang.specs.Steps.{arcs, origin as origin_in};
ghost use Rattle.origins.specs.Origins.{in_view, origin_from};
ghost use Rattle.reading.specs.Heads.{HeadAt, width_of};
ghost use Rattle.sizechange.specs.Graph.{Step};
ghost use Rattle.table.specs.Ends.{points};
ghost use Rattle.table.specs.Rows.{width};

use super::expressions::{end_of, head_of};
use super::scope::Scope;
use graphs::Graph;
use origins::origin::{Origin, origin_at};
use reading::head::Head;
use table::{Edge, Row, put};

impl Scope<'_> {
    /// The origin of the value of the expression at a place.
    pub fn origin_of(&self, at: usize) -> Origin
        requires { Stands self.now.script.bytes.now (length self.now.known.now) at }
        ensures { (e : Expr) (x : List ℕ) → Reads (drop at self.now.script.bytes.now) e x → origin_from result ≡ origin_in (in_view self.now.known.now (length self.now.known.now)) e }
    {
        match head_of(&self.script, at) {
            Head::Var(i) => origin_at(self.known, i as u32),
            _ => Origin::Unknown,
        }
    }

    /// The size-change graph of a call with n arguments, which stand one after the other from a place on.
    pub fn graph_of(&self, at: usize, n: u8) -> Graph
        requires stand { StandAll self.now.script.bytes.now (length self.now.known.now) at n }
        requires few { n ≤ max_args }
        ensures { (p : Prog) (es : Exprs) (k : ℕ) → StandingAll p self.now.script.bytes.now (length self.now.known.now) at n es k → Words result (arcs (in_view self.now.known.now (length self.now.known.now)) 0 es) }
    {
        let mut graph = Graph::none();
        let mut start = at;
        for i in 0..n {
            graph = self.origin_of(start).lead(graph, i as u32);
            start = end_of(&self.script, start);
        }
        graph
    }

    /// The step of the expression at a place, if it is a call.
    pub fn step_at(&self, at: usize, head: Head, caller: u32) -> Option<Edge>
        requires head { HeadAt self.now.script.bytes.now at (Some head) }
        requires stands { Stands self.now.script.bytes.now (length self.now.known.now) at }
        requires caller { caller < points }
        ensures step { (p : Prog) (e : Expr) (k : ℕ) → Standing p self.now.script.bytes.now (length self.now.known.now) at e k → OneStep (own caller (in_view self.now.known.now (length self.now.known.now)) e) result }
        ensures ends { EndsOf result }
        ensures wide { 3 * number result ≤ width_of head }
    {
        let inside = at + head.width();
        match head {
            Head::Call(callee, n) => Some(Edge {
                caller,
                callee: callee as u32,
                graph: self.graph_of(inside, n),
            }),
            _ => None,
        }
    }
}

/// The steps that are listed so far, in the first `count` of the rows: lent words, since there is no heap.
#[derive(Drop)]
pub struct StepTable<'a> {
    pub rows: &'a mut [u32],
    pub count: usize,
}

impl StepTable<'_> {
    /// Writes the next step, if there is one.
    pub fn push(&mut self, step: Option<Edge>)
        requires room { width * (self.old.count + number step) ≤ length self.old.rows.now }
        requires few { self.old.count < 2 ^ 32 }
        requires ends { EndsOf step }
        ensures memory { IsSameMemory self.old self.new }
        ensures count { self.new.count ≡ self.old.count + number step }
        ensures steps { (done ss : List Step) → StepRows self.old.rows.now done self.old.count → OneStep ss step → StepRows self.new.rows.now (done ++ ss) self.new.count }
    {
        if let Some(edge) = step {
            let row = Row {
                edge,
                from: 0,
                step: self.count as u32,
            };
            put(self.rows, self.count, row, 0);
            self.count += 1;
        }
    }
}
