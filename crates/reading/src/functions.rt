ghost use Rattle.std.specs.Prelude.{◌≡◌, ℕ, ◌<◌, ◌≤◌, length};
ghost use Rattle.std.proofs.Math.Option.{some};
ghost use Rattle.sizechange.specs.Graph.{nth};
ghost use Rattle.lang.specs.Program.{Prog, Fun};
ghost use Rattle.lang.specs.Bytes.{bytes_of_expr};
ghost use Rattle.reading.specs.Tables.{Tables};
ghost use Rattle.reading.specs.Ends.{EndsFrom};
ghost use Rattle.reading.specs.Functions.{FoundOr};

use super::ends::{EndTable, MAX_ARGS};
use super::expressions::Expressions;

// A program has at most so many functions.
pub const MAX_FUNCTIONS: usize = 64;

// Finds the functions, which stand one after the other, and notes where each starts.
pub(crate) fn find_functions(table: &EndTable, starts: &mut [u32]) -> Option<usize>
    requires few { length table.now.bytes.now ≤ 4096 }
    requires room { 64 ≤ length starts.old }
    requires known { EndsFrom table.now.bytes.now table.now.ends.now 0 }
    ensures { FoundOr table.now.bytes.now starts.new result }
{
    // No counted index: `at` goes on by whole functions. A `for` over the starts would have to end in two places: where the bytes end, and after the last start.
    let mut at = 0;
    let mut n = 0;
    while at < table.bytes.len() {
        if n >= MAX_FUNCTIONS {
            return None;
        }
        if table.bytes[at] > MAX_ARGS {
            return None;
        }
        let end = table.known_end(at + 1)?;
        starts[n] = at as u32;
        n += 1;
        at = end;
    }
    Some(n)
}

// A function: its number of arguments, and the part of the script's bytes that is its body.
#[derive(Clone, Copy, Debug, PartialEq)]
pub struct Function<'a> {
    pub args: u8,
    pub body: &'a [u8],
}

// Function f of a program that was read. Its body is a part of the bytes alone, so it may outlive the table of ends.
pub fn function_at<'a>(bytes: &'a [u8], ends: &[u32], starts: &[u32], f: usize) -> Function<'a>
    requires read { (p : Prog) × (n : ℕ) × Tables bytes.now p ends.now starts.now n × (f < n) }
    requires ends_room { length bytes.now ≤ length ends.now }
    requires starts_room { f < length starts.now }
    ensures { (p : Prog) (n : ℕ) (g : Fun) → Tables bytes.now p ends.now starts.now n → nth p f ≡ some g → (result.args ≡ g.args) × (result.body.now ≡ bytes_of_expr g.body) }
{
    let start = starts[f] as usize;
    let end = ends[start + 1] as usize;
    Function {
        args: bytes[start],
        body: &bytes[start + 1..end],
    }
}

impl<'a> Expressions<'a> {
    // The same.
    pub fn function_at(&self, starts: &[u32], f: usize) -> Function<'a>
        requires read { (p : Prog) × (n : ℕ) × Tables self.now.bytes.now p self.now.ends.now starts.now n × (f < n) }
        requires starts_room { f < length starts.now }
        ensures { (p : Prog) (n : ℕ) (g : Fun) → Tables self.now.bytes.now p self.now.ends.now starts.now n → nth p f ≡ some g → (result.args ≡ g.args) × (result.body.now ≡ bytes_of_expr g.body) }
    {
        function_at(self.bytes, self.ends, starts, f)
    }
}
