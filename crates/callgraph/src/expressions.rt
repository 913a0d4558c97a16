ghost use Rattle.std.specs.Prelude.{◌≡◌, ◌<◌, ◌≤◌, length, Some, slice_index};
ghost use Rattle.callgraph.specs.Standing.{ReadsAt};
ghost use Rattle.reading.specs.Heads.{HeadAt};

use reading::ends::head_at;
use reading::expressions::Expressions;
use reading::head::Head;

/// The head of the expression at a place.
pub fn head_of(script: &Expressions, at: usize) -> Head
    requires { ReadsAt script.now.bytes.now at }
    ensures { HeadAt script.now.bytes.now at (Some result) }
{
    head_at(script.bytes, at).unwrap()
}

/// Where the expression at a place ends, by the table.
pub fn end_of(script: &Expressions, at: usize) -> usize
    requires { ReadsAt script.now.bytes.now at }
    ensures is { result ≡ slice_index script.now.ends.now at }
    ensures forward { at < result }
    ensures within { result ≤ length script.now.bytes.now }
{
    script.ends[at] as usize
}
