use reading::expressions::Expressions;

// A script with what reading it noted: where its expressions end, and where each of its functions starts.
#[derive(Clone, Copy, Debug, PartialEq)]
pub struct Script<'a> {
    pub expressions: Expressions<'a>,
    pub starts: &'a [u32],
}
