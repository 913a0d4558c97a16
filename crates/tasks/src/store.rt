use arena::nodes::Arena;

// Why work stops without a value: there is no room for a node; too many calls are open.
#[derive(Clone, Copy, Debug, PartialEq)]
pub enum Stop {
    Full,
    Deep,
}

// The nodes, and the variables in frames: lent words, since there is no heap. Where a frame begins and ends goes with the work, since calls nest.
#[derive(Drop)]
pub struct Store<'a> {
    pub arena: Arena<'a>,
    pub frames: &'a mut [u32],
}
