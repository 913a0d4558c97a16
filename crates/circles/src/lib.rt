//! The first circle of a call graph without the reason: the calls of the first way that fails.
#![tactic(auto)]

ghost use Rattle.std.specs.Prelude.{◌≡◌, ℕ, suc, ◌+◌, ◌*◌, ◌<◌, ◌≤◌, List, length, Some, slice_index};
ghost use Rattle.circles.specs.Paths.{Named, Names, Part, Path, Run, Traced};
ghost use Rattle.closure.specs.Answers.{FirstFailing};
ghost use Rattle.closure.specs.Ways.{Complete, Grown, RowsOfSteps};
ghost use Rattle.lang.specs.Circle.{Call, FirstCircle};
ghost use Rattle.lang.specs.Program.{Prog};
ghost use Rattle.lang.specs.Steps.{call_graph};
ghost use Rattle.table.specs.declared.slice.RowSlice.{RowSlice};
ghost use Rattle.table.specs.Rows.{rows};

use table::RowSlice;

/// How many steps a way has, each from the way before it.
fn count_steps(ways: &RowSlice, way: usize) -> usize
    requires { (steps : RowSlice) × Traced steps ways.now way }
    ensures most { result ≤ suc way }
    ensures is { (is : List ℕ) → Path ways.now.words.now (suc way) is → length is ≡ result }
{
    let mut from = way + 1;
    let mut n = 0;
    // no chain: of `successors` no proof knows that they end, and an iterator for this one use would be longer
    while let Some(k) = from.checked_sub(1) {
        from = ways.row(k).from as usize;
        n += 1;
    }
    n
}

/// The number of a step in the body of its function, whose steps stand together.
fn number_in_body(steps: &RowSlice, step: usize) -> usize
    requires { step < steps.now.count }
    ensures { Run steps.now.words.now step result }
{
    let caller = steps.edge(step).caller;
    for before in (0..step).rev() {
        if steps.edge(before).caller != caller {
            return step - 1 - before;
        }
    }
    step
}

/// Names a step by two words, if there is room for them.
fn put_call(steps: &RowSlice, step: u32, place: usize, part: &mut [u32])
    requires { step < steps.now.count }
    ensures here { 2 * place + 1 < length part.old → Names steps.now.words.now part.new place step }
    ensures others { (j : ℕ) → 2 * place + 1 < j → slice_index part.new j ≡ slice_index part.old j }
{
    if place >= part.len() / 2 {
        return;
    }
    let step = step as usize;
    part[2 * place] = steps.edge(step).caller;
    part[2 * place + 1] = number_in_body(steps, step) as u32;
}

/// Names the steps of a way that has n, those from number `at` on, as many as there is room for.
fn write_calls(steps: &RowSlice, ways: &RowSlice, way: usize, n: usize, at: usize, part: &mut [u32])
    requires traced { Traced steps.now ways.now way }
    requires long { (is : List ℕ) → Path ways.now.words.now (suc way) is → length is ≡ n }
    ensures { (is : List ℕ) → Path ways.now.words.now (suc way) is → Named steps.now.words.now is at part.new }
{
    let mut from = way + 1;
    for number in (at..n).rev() {
        let row = ways.row(from - 1);
        put_call(steps, row.step, number - at, part);
        from = row.from as usize;
    }
}

/// How many calls the first circle has, where way `way` is the first that fails; `part` then has those from number `at` on, as many as there is room for.
pub fn first_circle(
    steps: &RowSlice,
    ways: &RowSlice,
    way: usize,
    at: usize,
    part: &mut [u32],
) -> usize
    requires grown { Grown (rows steps.now.words.now steps.now.count) (rows ways.now.words.now ways.now.count) }
    requires complete { Complete (rows steps.now.words.now steps.now.count) (rows ways.now.words.now ways.now.count) }
    requires fails { FirstFailing ways.now.words.now ways.now.count (Some way) }
    ensures most { result ≤ ways.now.count }
    ensures circle { (p : Prog) → RowsOfSteps (rows steps.now.words.now steps.now.count) (call_graph p) → (cs : List Call) × FirstCircle p cs × (length cs ≡ result) × Part cs at part.new }
{
    let calls = count_steps(ways, way);
    write_calls(steps, ways, way, calls, at, part);
    calls
}
