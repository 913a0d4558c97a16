//! The call graph of a script: each call as a step from function to function, with its size-change graph, in rows of words.
#![tactic(auto)]

ghost use Rattle.std.specs.Prelude.{◌*◌, ◌≤◌, length};
ghost use Rattle.callgraph.specs.Standing.{Room};
ghost use Rattle.callgraph.specs.StepRows.{StepRows, most_steps};
ghost use Rattle.table.specs.Rows.{width};
ghost use Rattle.lang.specs.Bytes.{Program};
ghost use Rattle.lang.specs.Program.{Prog};
ghost use Rattle.lang.specs.Steps.{call_graph};

mod body;
mod expressions;
mod notes;
mod scope;
mod steps;

use body::visit_body;
use expressions::end_of;
use origins::origin::give;
use origins::view::{View, note};
use reading::expressions::Expressions;
use steps::StepTable;

/// Writes the steps of a program as rows, in the order of its bytes; gives how many there are.
/// The words for what is known of variables and for notes are used up.
pub fn list_steps(
    script: &Expressions,
    known: &mut [u32],
    views: &mut [u32],
    rows: &mut [u32],
) -> usize
    requires program { (p : Prog) × Program script.now.bytes.now p }
    requires room { Room script.now.bytes.now (length known.old) (length views.old) }
    requires rows { width * most_steps (length script.now.bytes.now) ≤ length rows.old }
    ensures few { result ≤ most_steps (length script.now.bytes.now) }
    ensures steps { (p : Prog) → Program script.now.bytes.now p → StepRows rows.new (call_graph p) result }
{
    let mut at = 0;
    let mut caller = 0;
    let mut table = StepTable { rows, count: 0 };
    // No counted index: `at` goes on by whole functions. Callers know where they start, but to take that would ask more of them.
    while at < script.bytes.len() {
        let args = script.bytes[at] as u32;
        let body = at + 1;
        give(known, args);
        note(views, body, View::plain(args));
        visit_body(script, known, views, &mut table, caller, body);
        at = end_of(script, body);
        caller += 1;
    }
    table.count
}
