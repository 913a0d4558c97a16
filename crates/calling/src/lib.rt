// Calls a function of a script that was judged, on trees in bytes.
#![tactic(auto)]

ghost use Rattle.std.specs.Prelude.{◌≡◌, ℕ, ◌+◌, ◌-◌, ◌*◌, ◌^◌, ◌<◌, ◌≤◌, length, slice_index};
ghost use Rattle.lang.specs.Bytes.{bytes_of_trees};
ghost use Rattle.arena.specs.Nodes.{env};
ghost use Rattle.tasks.specs.Texts.{Taking};
ghost use Rattle.calling.specs.Calling.{Judged, Wants, CalledSays};

use arena::nodes::Arena;
use arena::reading::read_trees;
use error::CallError;
use running::run;
use script::Script;
use tasks::store::Store;
use tasks::text::Text;

pub mod error;
pub mod script;

// The value of a call: how many bytes its tree has, and the room left.
#[derive(Clone, Copy, Debug, PartialEq)]
pub struct Value {
    pub bytes: usize,
    pub room: usize,
}

// How many further calls may be open inside at most, and how many nodes may be made.
#[derive(Clone, Copy, Debug, PartialEq)]
pub struct Limits {
    pub depth: usize,
    pub room: usize,
}

// How many arguments a function takes, if it is there.
fn wanted(script: &Script, f: usize) -> Option<usize>
    requires { Judged script.now.expressions.bytes.now script.now.expressions.ends.now script.now.starts.now (length script.now.starts.now) }
    ensures { Wants script.now.expressions.bytes.now f result }
{
    if f >= script.starts.len() {
        return None;
    }
    Some(script.expressions.function_at(script.starts, f).args as usize)
}

// Runs a function on trees that are among the nodes, and writes its value. All of the stack serves the writing; its first `n` words are the arguments.
fn evaluate(
    text: &Text<'_>,
    store: &mut Store<'_>,
    f: u8,
    n: usize,
    depth: usize,
    stack: &mut [u32],
    out: &mut [u8],
) -> Result<Value, CallError>
    requires words { 4096 * (depth + 1) ≤ length store.old.frames.now }
    requires takes { Taking text.now.bytes.now f n }
    requires within { n ≤ length stack.old }
    requires stack { length store.old.arena.nodes.now ≤ 2 * length stack.old }
    requires there { (j : ℕ) → j < n → slice_index stack.old j ≤ store.old.arena.used }
    ensures { CalledSays text.now.bytes.now f (bytes_of_trees (env store.old.arena.nodes.now stack.old n)) depth (store.old.arena.limit - store.old.arena.used) out.old out.new result }
{
    let value = run(text, store, f, &stack[..n], depth)?;
    let bytes = store
        .arena
        .write(value.root, stack, out)
        .ok_or(CallError::OutFull)?;
    Ok(Value {
        bytes,
        room: value.room,
    })
}

// Calls a function that takes n arguments.
fn call_with<'a>(
    text: &Text<'_>,
    f: u8,
    n: usize,
    args: &[u8],
    limits: Limits,
    out: &mut [u8],
    memory: &'a mut [u32],
    frames: &'a mut [u32],
) -> Result<Value, CallError>
    requires takes { Taking text.now.bytes.now f n }
    requires numbered { length args.now + limits.room < 2 ^ 32 }
    requires memory { 4 * (length args.now + limits.room) ≤ length memory.old }
    requires frames { 4096 * (limits.depth + 1) ≤ length frames.old }
    ensures { CalledSays text.now.bytes.now f args.now limits.depth limits.room out.old out.new result }
{
    let words = 2 * (args.len() + limits.room);
    let (nodes, rest) = memory.split_at_mut(words);
    let (stack, _) = rest.split_at_mut(words);
    let used = read_trees(args, n, nodes, stack).ok_or(CallError::BadCall)?;
    let arena = Arena {
        nodes,
        used,
        limit: used + limits.room,
    };
    let mut store = Store { arena, frames };
    evaluate(text, &mut store, f, n, limits.depth, stack, out)
}

// Calls a function of a script that was judged, with the trees whose bytes are the arguments.
pub fn call<'a>(
    script: &Script<'_>,
    function: usize,
    args: &[u8],
    limits: Limits,
    out: &mut [u8],
    memory: &'a mut [u32],
    frames: &'a mut [u32],
) -> Result<Value, CallError>
    requires judged { Judged script.now.expressions.bytes.now script.now.expressions.ends.now script.now.starts.now (length script.now.starts.now) }
    requires numbered { length args.now + limits.room < 2 ^ 32 }
    requires memory { 4 * (length args.now + limits.room) ≤ length memory.old }
    requires frames { 4096 * (limits.depth + 1) ≤ length frames.old }
    ensures { CalledSays script.now.expressions.bytes.now function args.now limits.depth limits.room out.old out.new result }
{
    let n = wanted(script, function).ok_or(CallError::BadCall)?;
    let text = Text::new(script.expressions, script.starts);
    call_with(&text, function as u8, n, args, limits, out, memory, frames)
}
