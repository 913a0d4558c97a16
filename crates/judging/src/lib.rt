// Judges a script: is it a program, what are its ways, has it the reason?
#![tactic(auto)]

ghost use Rattle.std.specs.Prelude.{◌≡◌, ℕ, ◌+◌, ◌*◌, ◌/◌, ◌^◌, ◌<◌, ◌≤◌, List, length};
ghost use Rattle.lang.specs.Program.{Prog};
ghost use Rattle.lang.specs.Bytes.{Program};
ghost use Rattle.lang.specs.Steps.{call_graph};
ghost use Rattle.sizechange.specs.Graph.{Step};
ghost use Rattle.sizechange.specs.Theorems.{Fine};
ghost use Rattle.callgraph.specs.StepRows.{StepRows};
ghost use Rattle.judging.specs.declared.Refusal.TheVariants.{Many};
ghost use Rattle.judging.specs.Verdicts.{VerdictSays, Settles};

use callgraph::list_steps;
use closure::{TooMany, all_ways, first_without_reason};
use reading::expressions::Expressions;
use reading::program::read_program;
use table::RowSlice;

// What is found out about a program: how many functions and how many ways it has, and the first way without the reason, if there is one.
#[derive(Clone, Copy, Debug, PartialEq)]
pub struct Verdict {
    pub functions: usize,
    pub ways: usize,
    pub failing: Option<usize>,
}

// Why a script is not judged.
#[derive(Clone, Copy, Debug, PartialEq)]
pub enum Refusal {
    NoProgram,
    Many,
}

impl From<TooMany> for Refusal {
    ghost from_gives = { λ _ refusal. refusal ≡ Many };

    fn from(_many: TooMany) -> Refusal {
        Refusal::Many
    }
}

// What is found out about a call graph.
#[derive(Clone, Copy, Debug, PartialEq)]
struct Closed {
    ways: usize,
    failing: Option<usize>,
}

// More chains of the look-up than these would only take longer to empty.
const MOST_HEADS: usize = 0x100_0000;

// Finds all ways along the steps of a table, and whether each that can be repeated makes something smaller.
fn close(steps: &RowSlice, limit: u32, work: &mut [u32]) -> Result<Closed, TooMany>
    requires few { steps.now.count ≤ 4096 }
    requires room { 8192 + 16 * limit ≤ length work.old }
    ensures { (ss : List Step) → Fine 64 8 ss → StepRows steps.now.words.now ss steps.now.count → Settles ss limit result }
{
    let limit = limit as usize;
    let heads = (2 * limit + 64).min(MOST_HEADS);
    let (table, rest) = work.split_at_mut(8 * limit + 8);
    let (scratch, _) = rest.split_at_mut(64 + steps.count + heads);
    let ways = all_ways(steps, limit, table, scratch)?;
    let rows = RowSlice {
        words: table,
        count: ways,
    };
    let failing = first_without_reason(&rows);
    Ok(Closed { ways, failing })
}

// Judges a program by its call graph.
fn search(script: &Expressions, limit: u32, work: &mut [u32]) -> Result<Closed, TooMany>
    requires program { (p : Prog) × Program script.now.bytes.now p }
    requires few { length script.now.bytes.now ≤ 4096 }
    requires room { 16320 + (62 * length script.now.bytes.now + 64 * limit) ≤ length work.old }
    ensures { (p : Prog) → Program script.now.bytes.now p → Settles (call_graph p) limit result }
{
    let len = script.bytes.len();
    let (known, rest) = work.split_at_mut(len + 10);
    let (views, rest) = rest.split_at_mut(2 * len);
    let (steps, rest) = rest.split_at_mut(8 * (len / 3));
    let count = list_steps(script, known, views, steps);
    let steps = RowSlice {
        words: steps,
        count,
    };
    close(&steps, limit, rest)
}

// Judges a script, with so many ways allowed. The tables afterwards say where each expression ends and where each function starts.
pub fn find_verdict(
    program: &[u8],
    ways: u32,
    ends: &mut [u32],
    starts: &mut [u32],
    work: &mut [u32],
) -> Result<Verdict, Refusal>
    requires ends_room { length program.now ≤ length ends.old }
    requires starts_room { 64 ≤ length starts.old }
    requires work_room { 16320 + (63 * length program.now + 64 * ways) ≤ length work.old }
    ensures { VerdictSays program.now ends.new starts.new ways result }
{
    let (needs, rest) = work.split_at_mut(program.len());
    let functions = read_program(program, ends, starts, needs).ok_or(Refusal::NoProgram)?;
    let script = Expressions {
        bytes: program,
        ends,
    };
    let closed = search(&script, ways, rest)?;
    Ok(Verdict {
        functions,
        ways: closed.ways,
        failing: closed.failing,
    })
}
