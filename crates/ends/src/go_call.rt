ghost use Rattle.std.specs.Prelude.{◌≡◌, ◌≢◌, ◌+◌, ◌^◌, ◌<◌, ◌≤◌, length};
ghost use Rattle.ends.specs.Going.{GoPost, GoSays, go_floor, refusal_of};
ghost use Rattle.ends.specs.declared.go_call.Refusal.TheVariants.{Small, Unproved};

use super::floors::{Limits, WORDS_CALL, WORDS_NODE};
use super::words::split_tables;
use calling::call;
use calling::error::CallError;
use calling::script::Script;
use judging::find_verdict;
use reading::expressions::Expressions;
use thiserror::Error;

// Nodes are numbered by words.
const NUMBERS: usize = 0x1_0000_0000;

// A tree of so many bytes, and the room left: what calling gives, with the room as the word that the C interface takes.
#[derive(Clone, Copy, Debug, PartialEq)]
pub struct Value {
    pub bytes: usize,
    pub room: u32,
}

// Why a call has no value.
#[derive(Clone, Copy, Debug, PartialEq, Error)]
pub enum Refusal {
    #[error("full")]
    Full,
    #[error("deep")]
    Deep,
    #[error("unproved")]
    Unproved,
    #[error("bad call")]
    BadCall,
    #[error("out full")]
    OutFull,
    #[error("small")]
    Small,
}

impl From<judging::Refusal> for Refusal {
    ghost from_gives = { λ _ refusal. refusal ≡ Unproved };

    fn from(_refusal: judging::Refusal) -> Refusal {
        Refusal::Unproved
    }
}

impl From<CallError> for Refusal {
    ghost from_gives = { λ e refusal. refusal ≡ refusal_of e };

    fn from(e: CallError) -> Refusal {
        match e {
            CallError::Full => Refusal::Full,
            CallError::Deep => Refusal::Deep,
            CallError::BadCall => Refusal::BadCall,
            CallError::OutFull => Refusal::OutFull,
        }
    }
}

// What `go` does where there are words enough.
fn go_within(
    program: &[u8],
    limits: Limits,
    function: usize,
    args: &[u8],
    out: &mut [u8],
    work: &mut [u32],
) -> Result<Value, Refusal>
    requires numbered { length args.now + limits.room < 2 ^ 32 }
    requires words { go_floor program.now limits.ways args.now limits.depth limits.room ≤ length work.old }
    ensures says { GoSays program.now limits.ways function args.now limits.depth limits.room out.old out.new result }
    ensures not_small { result ≢ Err Small }
{
    let (ends, starts, rest) = split_tables(work, program.len());
    let nodes = args.len() + limits.room as usize;
    let (memory, rest) = rest.split_at_mut(WORDS_NODE * nodes);
    let (frames, rest) = rest.split_at_mut(WORDS_CALL * (limits.depth as usize + 1));
    let verdict = find_verdict(program, limits.ways, ends, starts, rest)?;
    if verdict.failing.is_some() {
        return Err(Refusal::Unproved);
    }
    let expressions = Expressions {
        bytes: program,
        ends,
    };
    let script = Script {
        expressions,
        starts: &starts[..verdict.functions],
    };
    // no From: it would be used once, and here it is seen that both only grow wider
    let within = calling::Limits {
        depth: limits.depth as usize,
        room: limits.room as usize,
    };
    let value = call(&script, function, args, within, out, memory, frames)?;
    Ok(Value {
        bytes: value.bytes,
        room: value.room as u32,
    })
}

// Judges a script and runs a function of it on trees, in lent memory. What runs is what was judged, and it ends for the reason alone.
pub fn go(
    program: &[u8],
    limits: Limits,
    function: usize,
    args: &[u8],
    out: &mut [u8],
    work: &mut [u32],
) -> Result<Value, Refusal>
    ensures { GoPost program.now limits.ways function args.now limits.depth limits.room out.old out.new (length work.old) result }
{
    if args.len() + limits.room as usize >= NUMBERS {
        return Err(Refusal::Small);
    }
    if work.len() < limits.words(program.len(), args.len()) {
        return Err(Refusal::Small);
    }
    go_within(program, limits, function, args, out, work)
}
