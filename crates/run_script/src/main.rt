// Runs function 0 of a script on trees in readable form, one for each line of standard input.
#![tactic(auto)]

ghost use Rattle.std.specs.Prelude.{◌≤◌, length, vec_len, IfOk};

use anyhow::{anyhow, bail};
use arena::nodes::{NodeId, Tree};
use arena::reading::read_trees;
use ends::{Limits, Refusal, Value, go};
use inputs::{MAX_WAYS, finish, number, read_script, read_within};
use readable::parsing::{Fault, Symbol, parse};
use showing::{Frame, show};
use std::env;
use std::io::Write;
use std::process::ExitCode;

// A depth at which the native stack holds, whatever the script; and room for which there is memory.
const MAX_DEPTH: u32 = 48;

const MAX_ROOM: u32 = 20000;

const MAX_TEXT: usize = 65536;

const MAX_BYTES: usize = 65536;

// Reads the tree on a line that begins at a byte of the input, and says how many bytes it is.
fn read_line(
    line: &[u8],
    start: usize,
    symbols: &mut [Symbol],
    bytes: &mut [u8],
) -> anyhow::Result<usize>
    ensures { IfOk result (λ n. n ≤ length bytes.old) }
{
    parse(line, symbols, bytes).map_err(|fault| match fault {
        Fault::At(at) => {
            let place = start.saturating_add(at);
            anyhow!("no tree: the byte at {place} of the input does not go on one")
        }
        Fault::Full => anyhow!("the trees are larger than can be taken"),
    })
}

// Reads the trees, one for each line that isn't empty, into bytes one after another, and says how many bytes they are.
fn read_lines(text: &[u8], symbols: &mut [Symbol], bytes: &mut [u8]) -> anyhow::Result<usize>
    ensures { IfOk result (λ n. n ≤ length bytes.old) }
{
    // the parser writes into lent memory, so what of it is used is counted; and a fault is told by its place in the whole input
    let mut used = 0;
    let mut start = 0usize;
    for line in text.split(|b| *b == b'\n') {
        if !line.is_empty() {
            used += read_line(line, start, symbols, &mut bytes[used..])?;
        }
        start = start.saturating_add(line.len()).saturating_add(1);
    }
    Ok(used)
}

// The bytes of the trees in a text.
fn read_args(rt: &HostRuntime, text: &[u8]) -> anyhow::Result<Vec<u8>>
    ensures { IfOk result (λ args. vec_len args ≤ MAX_BYTES) }
{
    let mut symbols = vec![in rt.alloc(); Symbol::Item; MAX_TEXT + 2]?;
    let mut bytes = vec![in rt.alloc(); 0u8; MAX_BYTES]?;
    let used = read_lines(text, symbols.as_mut_slice(), bytes.as_mut_slice())?;
    bytes.truncate(used);
    Ok(bytes)
}

// A tree as text.
fn show_tree(rt: &HostRuntime, tree: Tree<'_>) -> anyhow::Result<Vec<u8>> {
    let n = tree.root.0 as usize;
    let mut values = vec![in rt.alloc(); 0u32; n]?;
    let mut frames = vec![in rt.alloc(); Frame::Rest(tree.root); n]?;
    let mut text = vec![in rt.alloc(); 0u8; 2 * MAX_BYTES]?;
    let Some(shown) = show(
        tree,
        values.as_mut_slice(),
        frames.as_mut_slice(),
        text.as_mut_slice(),
    ) else {
        bail!("the value is larger than can be shown");
    };
    text.truncate(shown);
    Ok(text)
}

// The tree whose bytes these are, as text.
fn show_value(rt: &HostRuntime, value: &[u8]) -> anyhow::Result<Vec<u8>>
    requires { length value.now ≤ MAX_BYTES }
{
    let mut nodes = vec![in rt.alloc(); 0u32; 2 * value.len()]?;
    let mut stack = vec![in rt.alloc(); 0u32; value.len()]?;
    let words = stack.as_mut_slice();
    let Some(_) = read_trees(value, 1, nodes.as_mut_slice(), words) else {
        bail!("the value is no tree");
    };
    let root = NodeId(words[0]);
    show_tree(
        rt,
        Tree {
            nodes: nodes.as_slice(),
            root,
        },
    )
}

// Calls function 0 of the script. The work words are given back before the value is shown, which takes memory of its own: together they would be more than 4 MiB.
fn call(
    rt: &HostRuntime,
    script: &[u8],
    limits: Limits,
    args: &[u8],
    out: &mut [u8],
) -> anyhow::Result<Result<Value, Refusal>>
    ensures { IfOk result (λ ran. IfOk ran (λ value. value.bytes ≤ length out.old)) }
{
    let mut work = vec![in rt.alloc(); 0u32; limits.words(script.len(), args.len())]?;
    Ok(go(script, limits, 0, args, out, work.as_mut_slice()))
}

// Runs the script on the trees in a text, and prints the value and the room left, or the refusal.
fn run_on(rt: &HostRuntime, script: &[u8], limits: Limits, text: &[u8]) -> anyhow::Result<()> {
    let args = read_args(rt, text)?;
    let mut out = vec![in rt.alloc(); 0u8; MAX_BYTES]?;
    match call(rt, script, limits, args.as_slice(), out.as_mut_slice())? {
        Ok(value) => {
            out.truncate(value.bytes);
            let shown = show_value(rt, out.as_slice())?;
            rt.stdout().write_all(shown.as_slice())?;
            println!(rt; "\nroom left: {}", value.room)?;
        }
        Err(refusal) => println!(rt; "{refusal}")?,
    }
    Ok(())
}

fn run(rt: &HostRuntime) -> anyhow::Result<()> {
    let mut args = env::args(rt)?.skip(1);
    let path = args.next().ok_or_else(|| {
        anyhow!("usage: run_script FILE [DEPTH [ROOM]] with a tree on each line of standard input")
    })?;
    let limits = Limits {
        ways: MAX_WAYS,
        depth: number("depth", args.next(), MAX_DEPTH)?,
        room: number("room", args.next(), MAX_ROOM)?,
    };
    let script = read_script(rt, path.as_str())?;
    let text = read_within(rt.alloc(), rt.stdin(), MAX_TEXT)?.ok_or_else(|| anyhow!(
        "the trees' text is longer than can be taken"
    ))?;
    run_on(rt, script.as_slice(), limits, text.as_slice())
}

fn main(rt: HostRuntime) -> ExitCode {
    finish(&rt, "run_script", run(&rt))
}
