ghost use Rattle.tasks.specs.Texts.{Ending};

// A program that ends: its bytes, where its expressions end, where its functions start. With no heap the tables are lent words, filled by reading.
// No `Expressions` in it: `Ending` says of the tables all that one says, so no clause would go, and each of the interpreter's would name the bytes by a step more.
#[derive(Clone, Copy)]
pub struct Text<'a> {
    pub bytes: &'a [u8],
    pub ends: &'a [u32],
    pub starts: &'a [u32],
    ghost ending: { ∥ Ending bytes.now ends.now starts.now ∥₁ },
}
