ghost use Rattle.std.specs.Prelude.{◌≡◌, ◌≢◌, ◌≤◌, length};
ghost use Rattle.ends.specs.Judging.{JudgedPost, JudgedSays, floor, judged_of};
ghost use Rattle.ends.specs.declared.judge_call.Judged.TheVariants.{Few};

use super::floors::judge_words;
use super::words::split_tables;
use judging::{Refusal, Verdict, find_verdict};
use std::fmt;

// What is said of a program. No Result: no answer has a value, and all five are printed and numbered alike.
#[derive(Clone, Copy, Debug, PartialEq)]
pub enum Judged {
    Ends,
    NoReason,
    NoProgram,
    Many,
    Few,
}

impl From<Result<Verdict, Refusal>> for Judged {
    ghost from_gives = { λ found judged. judged ≡ judged_of found };

    fn from(found: Result<Verdict, Refusal>) -> Judged {
        match found {
            Ok(Verdict { failing: None, .. }) => Judged::Ends,
            Ok(
                Verdict {
                    failing: Some(_),
                    ..
                },
            ) => Judged::NoReason,
            Err(Refusal::NoProgram) => Judged::NoProgram,
            Err(Refusal::Many) => Judged::Many,
        }
    }
}

impl fmt::Display for Judged {
    fn fmt<W: fmt::Write>(&self, f: &mut fmt::Formatter<W>) -> fmt::Result {
        f.write_str(match self {
            Judged::Ends => "ends",
            Judged::NoReason => "no reason",
            Judged::NoProgram => "no program",
            Judged::Many => "many",
            Judged::Few => "few",
        })
    }
}

// What `judge` does where there are words enough.
fn judge_within(program: &[u8], ways: u32, work: &mut [u32]) -> Judged
    requires { floor program.now ways ≤ length work.old }
    ensures says { JudgedSays program.now ways result }
    ensures not_few { result ≢ Few }
{
    let (ends, starts, rest) = split_tables(work, program.len());
    find_verdict(program, ways, ends, starts, rest).into()
}

// Says of a script whether it ends for the reason, with so many ways allowed, in lent memory.
pub fn judge(program: &[u8], ways: u32, work: &mut [u32]) -> Judged
    ensures { JudgedPost program.now ways (length work.old) result }
{
    if work.len() < judge_words(program.len(), ways) {
        return Judged::Few;
    }
    judge_within(program, ways, work)
}
