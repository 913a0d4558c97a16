ghost use Rattle.std.specs.Prelude.{ℕ, ◌*◌, ◌<◌, ◌≤◌, List, ◌++◌, length, slice_index};
ghost use Rattle.callgraph.specs.Pending.{Pending, Walk};
ghost use Rattle.callgraph.specs.Standing.{Room};
ghost use Rattle.callgraph.specs.StepRows.{StepRows, most_steps};
ghost use Rattle.callgraph.specs.StepTables.{IsSameMemory};
ghost use Rattle.lang.specs.Program.{Prog};
ghost use Rattle.sizechange.specs.Graph.{Step};
ghost use Rattle.table.specs.Ends.{points};
ghost use Rattle.table.specs.Rows.{width};

use super::expressions::{end_of, head_of};
use super::scope::Scope;
use super::steps::StepTable;
use origins::view::{open, view_at};
use reading::expressions::Expressions;

/// Visits the expressions of a body in the order of their bytes and lists their steps.
pub fn visit_body(
    script: &Expressions,
    known: &mut [u32],
    views: &mut [u32],
    table: &mut StepTable,
    caller: u32,
    mut at: usize,
)
    requires room { Room script.now.bytes.now (length known.old) (length views.old) }
    requires rows { width * most_steps (length script.now.bytes.now) ≤ length table.old.rows.now }
    requires caller { caller < points }
    requires few { 3 * table.old.count ≤ at }
    requires walk { Walk script.now.bytes.now views.old known.old caller (slice_index script.now.ends.now at) at }
    ensures memory { IsSameMemory table.old table.new }
    ensures few { 3 * table.new.count ≤ slice_index script.now.ends.now at }
    ensures steps { (p : Prog) (b : ℕ) (ss done : List Step) → Pending p script.now.bytes.now views.old known.old caller (slice_index script.now.ends.now at) b at ss → StepRows table.old.rows.now done table.old.count → StepRows table.new.rows.now (done ++ ss) table.new.count }
{
    let end = end_of(script, at);
    // No counted index: each head has its own width.
    while at < end {
        let head = head_of(script, at);
        let vars = open(known, view_at(views, at)) as usize;
        let scope = Scope {
            script: *script,
            known: &known[..vars],
        };
        let step = scope.step_at(at, head, caller);
        table.push(step);
        scope.note_parts(views, at, head);
        at += head.width();
    }
}
