// The interpreter.
#![tactic(auto)]

ghost use Rattle.std.specs.Prelude.{◌≡◌, ℕ, ◌+◌, ◌*◌, ◌<◌, ◌≤◌, length, slice_index, IfOk};
ghost use Rattle.arena.specs.Nodes.{env, Grown};
ghost use Rattle.tasks.specs.Texts.{Taking};
ghost use Rattle.tasks.specs.Stores.{room};
ghost use Rattle.running.specs.Runs.{RunsTo};

use arena::nodes::NodeId;
use cycle::{Frame, value};
use tasks::store::{Stop, Store};
use tasks::text::Text;

mod cycle;

// The value of a run, and how much room is left.
#[derive(Clone, Copy, Debug, PartialEq)]
pub struct Value {
    pub root: NodeId,
    pub room: usize,
}

// Runs a function of a program that ends, on trees that are there, with so many further calls open inside at most. It comes to what the definition says, and older nodes keep their trees.
pub fn run(
    text: &Text<'_>,
    store: &mut Store<'_>,
    f: u8,
    given: &[u32],
    depth: usize,
) -> Result<Value, Stop>
    requires words { 4096 * (depth + 1) ≤ length store.old.frames.now }
    requires takes { Taking text.now.bytes.now f (length given.now) }
    requires there { (j : ℕ) → j < length given.now → slice_index given.now j ≤ store.old.arena.used }
    ensures there { IfOk result (λ v. v.root.0 ≤ store.new.arena.used) }
    ensures grown { Grown store.old.arena.nodes.now store.old.arena.used store.new.arena.nodes.now store.new.arena.used }
    ensures comes { RunsTo text.now.bytes.now f (env store.old.arena.nodes.now given.now (length given.now)) depth (room store.old) store.new.arena.nodes.now result }
{
    store.open(given);
    let at = text.body(f);
    let frame = Frame {
        base: 0,
        top: given.len(),
        depth,
    };
    let root = value(text, store, at, &frame, false)?;
    Ok(Value {
        root,
        room: store.arena.limit - store.arena.used,
    })
}
