ghost use Rattle.std.specs.Prelude.{◌≡◌, ◌+◌, ◌≤◌, length};

use reading::functions::MAX_FUNCTIONS;

// Where each of the functions starts.
const STARTS: usize = MAX_FUNCTIONS;

// The work words of judging: those for where each expression of so many bytes ends, for where each function starts, and the rest.
// Callers hand the three on to judging one by one: the tables outlive it, and the rest does not.
pub fn split_tables(work: &mut [u32], bytes: usize) -> (&mut [u32], &mut [u32], &mut [u32])
    requires { bytes + 64 ≤ length work.old }
    ensures ends { length result.0.now ≡ bytes }
    ensures starts { length result.1.now ≡ 64 }
    ensures rest { bytes + (64 + length result.2.now) ≡ length work.old }
{
    let (ends, rest) = work.split_at_mut(bytes);
    let (starts, rest) = rest.split_at_mut(STARTS);
    (ends, starts, rest)
}
