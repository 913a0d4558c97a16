ghost use Rattle.std.specs.Prelude.{◌≡◌, ◌+◌, ◌-◌, ◌*◌, ◌^◌, ◌<◌, ◌≤◌, min, true, ◌⊎◌, ◌↔◌};

// What judging wants of any script, and so many for each byte of it and as many for each way.
const WORDS: usize = 16384;

const WORDS_EACH: usize = 64;

// What a run wants besides, for each node and for each open call.
pub(crate) const WORDS_NODE: usize = 4;

pub(crate) const WORDS_CALL: usize = 4096;

// The work words that judging a script of so many bytes wants, or the largest number where that is larger.
pub fn judge_words(bytes: usize, ways: u32) -> usize
    ensures { result ≡ min (16384 + (64 * bytes + 64 * ways)) (2 ^ 64 - 1) }
{
    bytes
        .saturating_mul(WORDS_EACH)
        .saturating_add(WORDS_EACH * ways as usize)
        .saturating_add(WORDS)
}

// What a run may have: so many ways of its script, calls open inside, and nodes made, in the words of the C interface. Calling's own `Limits` has no ways, and takes larger numbers: with these words it would ask more of its callers.
#[derive(Clone, Copy, Debug, PartialEq)]
pub struct Limits {
    pub ways: u32,
    pub depth: u32,
    pub room: u32,
}

impl Limits {
    // The work words that a run of a script of so many bytes wants: those of judging, four for each byte of the trees and each node of room, and 4,096 for each open call and one more.
    pub fn words(self, bytes: usize, args: usize) -> usize
        ensures { result ≡ min ((16384 + (64 * bytes + 64 * self.ways)) + (4 * (args + self.room) + 4096 * (self.depth + 1))) (2 ^ 64 - 1) }
    {
        let nodes = args
            .saturating_mul(WORDS_NODE)
            .saturating_add(WORDS_NODE * self.room as usize);
        let frames = WORDS_CALL * (self.depth as usize + 1);
        judge_words(bytes, self.ways)
            .saturating_add(nodes)
            .saturating_add(frames)
    }
}
