// The calls for other languages, as `include/pegsienna.h` declares them: those of crate `ends`, with their answers as numbers. The C interface needs the limits and the floors one by one.
#![tactic(auto)]

ghost use Rattle.std.specs.Prelude.{◌≡◌, ◌+◌, ◌-◌, ◌*◌, ◌^◌, length, min, Result};
ghost use Rattle.ends.specs.Going.{GoPost};
ghost use Rattle.ends.specs.Judging.{JudgedPost};
ghost use Rattle.ends.specs.Numbers.{judged_number, ran_numbers};
ghost use Rattle.ends.specs.declared.go_call.Refusal.{Refusal};
ghost use Rattle.ends.specs.declared.go_call.Value.{Value};
ghost use Rattle.ends.specs.declared.judge_call.Judged.{Judged};

use ends::{Limits, RanC, go, judge, judge_words};

// `judge`: 0 ends, 1 no reason, 2 no program, 3 many, 4 few.
#[unsafe(no_mangle)]
pub extern "C" fn pegsienna_judge(program: &[u8], ways: u32, work: &mut [u32]) -> u32
    ensures { (x : Judged) × (result ≡ judged_number x) × JudgedPost program.now ways (length work.old) x }
{
    judge(program, ways, work).into()
}

// `go`: 0 a value, 1 full, 2 deep, 3 unproved, 4 a bad call, 5 out is full, 6 small.
#[unsafe(no_mangle)]
pub extern "C" fn pegsienna_go(
    program: &[u8],
    ways: u32,
    function: usize,
    args: &[u8],
    depth: u32,
    room: u32,
    out: &mut [u8],
    work: &mut [u32],
) -> RanC
    ensures { (x : Result Value Refusal) × (result ≡ ran_numbers x) × GoPost program.now ways function args.now depth room out.old out.new (length work.old) x }
{
    let limits = Limits { ways, depth, room };
    go(program, limits, function, args, out, work).into()
}

// The work words that judging a script of so many bytes wants, or the largest number where that is larger.
#[unsafe(no_mangle)]
pub extern "C" fn pegsienna_judge_words(bytes: usize, ways: u32) -> usize
    ensures { result ≡ min (16384 + (64 * bytes + 64 * ways)) (2 ^ 64 - 1) }
{
    judge_words(bytes, ways)
}

// The work words that a run wants: those of judging, four for each byte of the trees and each node of room, and 4,096 for each open call and one more.
#[unsafe(no_mangle)]
pub extern "C" fn pegsienna_go_words(
    bytes: usize,
    ways: u32,
    args: usize,
    depth: u32,
    room: u32,
) -> usize
    ensures { result ≡ min ((16384 + (64 * bytes + 64 * ways)) + (4 * (args + room) + 4096 * (depth + 1))) (2 ^ 64 - 1) }
{
    Limits { ways, depth, room }.words(bytes, args)
}
