ghost use Rattle.std.specs.Prelude.{◌+◌, ◌≤◌, length};
ghost use Rattle.reading.specs.Tables.{ReadOr};

use super::ends::{EndTable, fill_ends};
use super::expressions::Expressions;
use super::functions::find_functions;
use super::needs::{Needs, fill_needs};

// A program has at most so many bytes.
pub const MAX_BYTES: usize = 4096;

// Reads a program: how many functions it has, or that the bytes are none.
// The tables say afterwards where each expression ends and where each function starts.
// They come apart: the words are lent to be filled, and a struct that keeps what they say would not hold before.
pub fn read_program(
    bytes: &[u8],
    ends: &mut [u32],
    starts: &mut [u32],
    needs: &mut [u32],
) -> Option<usize>
    requires ends_room { length bytes.now ≤ length ends.old }
    requires starts_room { 64 ≤ length starts.old }
    requires needs_room { length bytes.now ≤ length needs.old }
    ensures { ReadOr bytes.now ends.new starts.new result }
{
    if bytes.len() > MAX_BYTES {
        return None;
    }
    fill_ends(bytes, ends);
    let n = find_functions(&EndTable { bytes, ends }, starts)?;
    let starts = &starts[0..n];
    let expressions = Expressions { bytes, ends };
    fill_needs(expressions, starts, needs);
    let needs = Needs {
        expressions,
        starts,
        words: needs,
    };
    if needs.bodies_fit() { Some(n) } else { None }
}
