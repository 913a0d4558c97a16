// The interpreter: an expression is worked out by following its bytes.
// What each function asks and promises ties a frame to a place and to the store as it then is, so no type can say it. The text and the store stay two parameters: the one is shared and stays as it is, the other is lent to be changed.
ghost use Rattle.std.specs.Prelude.{ℕ, ◌+◌, ◌≤◌, Bool, true, length, Some, All, IfOk};
ghost use Rattle.reading.specs.declared.head.Head.TheVariants.{Node};
ghost use Rattle.reading.specs.Heads.{HeadAt};
ghost use Rattle.tasks.specs.Tasks.{Stands, Says};
ghost use Rattle.tasks.specs.Stores.{Ready, Moved, Wide, task, tasks, floor, comes_to, come_to};

use arena::nodes::{LEAF, NodeId};
use reading::head::Head;
use tasks::store::{Stop, Store};
use tasks::text::Text;
use tasks::words::{Given, MAX_ARGS};

// The variables in view, from `base` to `top`, and how many further calls may be opened.
// It is lent to what is inside: handed on by value it is copied to the native stack with each call (docs/DECISIONS.md).
#[derive(Clone, Copy, Debug, PartialEq)]
pub struct Frame {
    pub base: usize,
    pub top: usize,
    pub depth: usize,
}

// Works out the expression at a place, inside or last in its body, with the variables of a frame. What stands last, a call too, is done in its place.
#[cycle(evaluation)]
pub fn value(
    text: &Text<'_>,
    store: &mut Store<'_>,
    mut at: usize,
    within: &Frame,
    mut inside: bool,
) -> Result<NodeId, Stop>
    requires ready { Ready store.old within.now.base within.now.top }
    requires wide { Wide text.now.bytes.now (length store.old.frames.now) at within.now.base within.now.top within.now.depth }
    requires stands { Stands text.now.bytes.now (task store.old at within.now.base within.now.top within.now.depth inside) }
    ensures moved { Moved (floor inside within.now.base within.now.top) store.old store.new }
    ensures there { IfOk result (λ v. v.0 ≤ store.new.arena.used) }
    ensures says { Says text.now.bytes.now (task store.old at within.now.base within.now.top within.now.depth inside) (comes_to store.new result) }
{
    let mut frame = *within;
    'body: loop {
        match text.head(at) {
            Head::Var(i) => return Ok(store.variable(frame.top, i)),
            Head::Leaf => return Ok(LEAF),
            Head::Node => return node(text, store, at, &frame),
            Head::Parts(i) => {
                let whole = store.variable(frame.top, i);
                if store.arena.is_leaf(whole) {
                    at += 2;
                    continue 'body;
                }
                store.keep_parts(frame.top, whole);
                at = text.end(at + 2);
                frame.top += 2;
                continue 'body;
            }
            Head::Bind => {
                let bound = operand(text, store, at + 1, &frame)?;
                store.keep(frame.top, bound);
                at = text.end(at + 1);
                frame.top += 1;
                continue 'body;
            }
            Head::Call(f, n) => {
                let given = arguments(text, store, at + 3, &frame, n)?;
                if inside {
                    if frame.depth == 0 {
                        return Err(Stop::Deep);
                    }
                    frame.depth -= 1;
                    frame.base = frame.top;
                    inside = false;
                }
                store.give(frame.base, given, n);
                frame.top = frame.base + n as usize;
                at = text.body(f);
                continue 'body;
            }
        }
    }
}

// Works out the two parts of a node, and makes it if there is room then.
#[cycle(evaluation)]
fn node(text: &Text<'_>, store: &mut Store<'_>, at: usize, frame: &Frame) -> Result<NodeId, Stop>
    requires head { HeadAt text.now.bytes.now at (Some Node) }
    requires ready { Ready store.old frame.now.base frame.now.top }
    requires wide { Wide text.now.bytes.now (length store.old.frames.now) at frame.now.base frame.now.top frame.now.depth }
    requires stands { Stands text.now.bytes.now (task store.old at frame.now.base frame.now.top frame.now.depth true) }
    ensures moved { Moved frame.now.top store.old store.new }
    ensures there { IfOk result (λ v. v.0 ≤ store.new.arena.used) }
    ensures says { (inside : Bool) → Says text.now.bytes.now (task store.old at frame.now.base frame.now.top frame.now.depth inside) (comes_to store.new result) }
{
    let left = operand(text, store, at + 1, frame)?;
    let next = text.end(at + 1);
    let right = operand(text, store, next, frame)?;
    store.make(left, right)
}

// Works out the expression at a place inside another; a variable and a leaf are read where they stand.
#[cycle(evaluation)]
fn operand(text: &Text<'_>, store: &mut Store<'_>, at: usize, frame: &Frame) -> Result<NodeId, Stop>
    requires ready { Ready store.old frame.now.base frame.now.top }
    requires wide { Wide text.now.bytes.now (length store.old.frames.now) at frame.now.base frame.now.top frame.now.depth }
    requires stands { Stands text.now.bytes.now (task store.old at frame.now.base frame.now.top frame.now.depth true) }
    ensures moved { Moved frame.now.top store.old store.new }
    ensures there { IfOk result (λ v. v.0 ≤ store.new.arena.used) }
    ensures says { Says text.now.bytes.now (task store.old at frame.now.base frame.now.top frame.now.depth true) (comes_to store.new result) }
{
    match text.head(at) {
        Head::Var(i) => Ok(store.variable(frame.top, i)),
        Head::Leaf => Ok(LEAF),
        _ => value(text, store, at, frame, true),
    }
}

// Works out the arguments of a call, the first of which stands at a place.
// The loop is as long as a call can have arguments, so that it is unrolled. Sort's bar is 7 × plain Rust: the same loops in Rust take 6.8 so, 7.1 over `0..n`, 7.2 over `&mut given.0[..n]`.
// As rt builds it, sort takes 6.4 so, but up to 7.3 over `(0..MAX_ARGS).take(n)` or `0..n.min(MAX_ARGS)`, which are not unrolled. Over `given.0.iter_mut().take(n)` the proof doesn't close: nothing is known of `given` after it.
#[cycle(evaluation)]
fn arguments(
    text: &Text<'_>,
    store: &mut Store<'_>,
    mut at: usize,
    frame: &Frame,
    n: u8,
) -> Result<Given, Stop>
    requires few { n ≤ 8 }
    requires ready { Ready store.old frame.now.base frame.now.top }
    requires wide { Wide text.now.bytes.now (length store.old.frames.now) at frame.now.base frame.now.top frame.now.depth }
    requires stand { Stands text.now.bytes.now (tasks store.old at frame.now.base frame.now.top frame.now.depth n) }
    ensures moved { Moved frame.now.top store.old store.new }
    ensures there { IfOk result (λ given. All (λ v. v.0 ≤ store.new.arena.used) given.0) }
    ensures say { Says text.now.bytes.now (tasks store.old at frame.now.base frame.now.top frame.now.depth n) (come_to store.new result n) }
{
    let mut given = Given([LEAF; MAX_ARGS]);
    for j in 0..MAX_ARGS {
        if j == n as usize {
            return Ok(given);
        }
        given.0[j] = operand(text, store, at, frame)?;
        at = text.end(at);
    }
    Ok(given)
}
