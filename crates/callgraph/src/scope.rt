ghost use Rattle.std.specs.Prelude.{◌≤◌, length};
ghost use Rattle.lang.specs.Program.{max_bytes};

use reading::expressions::Expressions;

/// A script, and a word for each variable in view at one of its places, of which the newest has the last.
#[derive(Clone, Copy, Debug, PartialEq)]
pub struct Scope<'a> {
    pub script: Expressions<'a>,
    pub known: &'a [u32],
    ghost few: { length script.bytes.now ≤ max_bytes },
}
