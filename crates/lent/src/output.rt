ghost use Rattle.std.specs.Prelude.{◌≡◌, ◌≤◌, [], ◌∷◌, length, MatchResult, OnErr};

// What was to be written does not fit into the memory.
#[derive(Clone, Copy, Debug, PartialEq)]
pub struct NoRoom;

// Bytes that are written one behind the other, in a slice and not a Vec, since there is no heap here.
#[derive(Drop)]
pub struct Output<'a> {
    pub bytes: &'a mut [u8],
    pub len: usize,
    pub ghost within: { len ≤ length bytes.now },
}

impl<'a> Output<'a> {
    ghost use Rattle.lent.specs.Output.{written, Appends, Overflows};

    pub fn new(bytes: &'a mut [u8]) -> Output<'a>
        ensures memory { result.bytes.ghost_name ≡ bytes.entry.ghost_name }
        ensures empty { result.len ≡ 0 }
        ensures bytes { result.bytes.now ≡ bytes.old }
    {
        Output { bytes, len: 0 }
    }

    // One byte more.
    pub fn put(&mut self, byte: u8) -> Result<(), NoRoom>
        ensures bytes { MatchResult result (λ _. Appends self.old self.new (byte ∷ [])) (λ _. Overflows self.old (byte ∷ [])) }
        ensures unchanged { OnErr result (self.new ≡ self.old) }
    {
        if self.len == self.bytes.len() {
            return Err(NoRoom);
        }
        self.bytes[self.len] = byte;
        self.len += 1;
        Ok(())
    }

    // All of these bytes, or none.
    pub fn put_all(&mut self, more: &[u8]) -> Result<(), NoRoom>
        ensures bytes { MatchResult result (λ _. Appends self.old self.new more.now) (λ _. Overflows self.old more.now) }
        ensures unchanged { OnErr result (self.new ≡ self.old) }
    {
        if self.bytes.len() - self.len < more.len() {
            return Err(NoRoom);
        }
        let end = self.len + more.len();
        self.bytes[self.len..end].copy_from_slice(more);
        self.len = end;
        Ok(())
    }
}
