// Says of a script whether it ends, and how many ways it has.
#![tactic(auto)]

ghost use Rattle.std.specs.Prelude.{◌+◌, ◌*◌, ◌≤◌, length};

use anyhow::anyhow;
use ends::{judge, judge_words, split_tables};
use inputs::{MAX_SCRIPT, MAX_WAYS, finish, number, read_script};
use judging::find_verdict;
use std::env;
use std::process::ExitCode;

// The number of ways of a script that was judged, where they are not more than allowed.
fn count_ways(script: &[u8], ways: u32, work: &mut [u32]) -> Option<usize>
    requires few { length script.now ≤ MAX_SCRIPT }
    requires room { 16384 + (64 * length script.now + 64 * ways) ≤ length work.old }
{
    let (ends, starts, rest) = split_tables(work, script.len());
    let found = find_verdict(script, ways, ends, starts, rest);
    found.ok().map(|verdict| verdict.ways)
}

// Judges a script and prints what is said of it, with the number of its ways.
fn show(rt: &HostRuntime, script: &[u8], ways: u32) -> anyhow::Result<()>
    requires few { length script.now ≤ MAX_SCRIPT }
    requires ways { ways ≤ MAX_WAYS }
{
    let mut work = vec![in rt.alloc(); 0u32; judge_words(script.len(), ways)]?;
    let judged = judge(script, ways, work.as_mut_slice());
    println!(rt; "{judged}")?;
    if let Some(count) = count_ways(script, ways, work.as_mut_slice()) {
        println!(rt; "ways: {count}")?;
    }
    Ok(())
}

fn run(rt: &HostRuntime) -> anyhow::Result<()> {
    let mut args = env::args(rt)?.skip(1);
    let path = args
        .next()
        .ok_or_else(|| anyhow!("usage: judge_script FILE [WAYS]"))?;
    let ways = number("number of ways", args.next(), MAX_WAYS)?;
    let script = read_script(rt, path.as_str())?;
    show(rt, script.as_slice(), ways)
}

fn main(rt: HostRuntime) -> ExitCode {
    finish(&rt, "judge_script", run(&rt))
}
