ghost use Rattle.std.specs.Prelude.{◌≡◌, ℕ, ◌+◌, ◌^◌, ◌<◌, ◌≤◌, Bool, length, Some, IfSome, slice_index};
ghost use Rattle.lang.specs.Bytes.{all_ok, ok, takes};
ghost use Rattle.lang.specs.Program.{Fun, Prog};
ghost use Rattle.reading.specs.Functions.{StandsAt};
ghost use Rattle.reading.specs.Heads.{HeadAt};
ghost use Rattle.reading.specs.Needs.{Located, Need, NeedOfAll, NeedOfTwo, NeedsFrom, need_of};
ghost use Rattle.sizechange.specs.Graph.{nth};

use super::ends::head_at;
use super::expressions::Expressions;
use super::head::Head;

// What is known of a script while the table of needs is filled, and after: how many variables each expression needs in view.
#[derive(Clone, Copy)]
pub(crate) struct Needs<'a> {
    pub expressions: Expressions<'a>,
    pub starts: &'a [u32],
    pub words: &'a [u32],
    ghost bodies: { (f : ℕ) → f < length starts.now → slice_index starts.now f + 1 < length expressions.bytes.now },
    ghost room: { length expressions.bytes.now ≤ length words.now },
}

// That a need fits a word with one more stays a clause: in a struct of its own it would lose `max` and `saturating_sub`.
impl Needs<'_> {
    // What the expression at a place needs, by the table.
    fn known_need(&self, at: usize) -> Option<u32>
        requires { at < length self.now.expressions.bytes.now }
        ensures need { result ≡ need_of (slice_index self.now.words.now at) }
        ensures fits { IfSome result (λ n. n + 1 < 2 ^ 32) }
    {
        self.words[at].checked_sub(1)
    }

    // What n expressions one after the other need, by the tables, of which that of needs is right from there on.
    fn need_of_all(&self, at: usize, n: u8) -> Option<u32>
        ensures need { (p : Prog) → NeedsFrom p self.now.expressions.bytes.now self.now.words.now at → NeedOfAll p self.now.expressions.bytes.now n at result }
        ensures fits { IfSome result (λ n. n + 1 < 2 ^ 32) }
    {
        let mut need = 0u32;
        let mut place = at;
        for _i in 0..n {
            let end = self.expressions.end(place)?;
            let own = self.known_need(place)?;
            need = need.max(own);
            place = end;
        }
        Some(need)
    }

    // What two expressions one after the other need, the second with so many more variables in view.
    fn need_of_two(&self, at: usize, more: u32) -> Option<u32>
        ensures need { (p : Prog) → NeedsFrom p self.now.expressions.bytes.now self.now.words.now at → NeedOfTwo p self.now.expressions.bytes.now at more result }
        ensures fits { IfSome result (λ n. n + 1 < 2 ^ 32) }
    {
        let second = self.expressions.end(at)?;
        if second >= self.expressions.bytes.len() {
            return None;
        }
        let first_need = self.known_need(at)?;
        let second_need = self.known_need(second)?;
        Some(first_need.max(second_need.saturating_sub(more)))
    }

    // Whether function f is there and takes n arguments.
    fn takes_args(&self, f: u8, n: u8) -> bool
        ensures { (p : Prog) → Located self.now.expressions.bytes.now self.now.starts.now p → result ≡ takes (nth p f) n }
    {
        let f = f as usize;
        f < self.starts.len() && self.expressions.bytes[self.starts[f] as usize] == n
    }

    // What the expression with a head needs, by the tables, of which that of needs is right after its place.
    fn need_of_head(&self, at: usize, head: Head) -> Option<u32>
        requires stands { HeadAt self.now.expressions.bytes.now at (Some head) }
        ensures need { (p : Prog) → Located self.now.expressions.bytes.now self.now.starts.now p → NeedsFrom p self.now.expressions.bytes.now self.now.words.now (at + 1) → Need p self.now.expressions.bytes.now at result }
        ensures fits { IfSome result (λ n. n + 1 < 2 ^ 32) }
    {
        match head {
            Head::Var(i) => Some(i as u32 + 1),
            Head::Leaf => Some(0),
            Head::Node => self.need_of_two(at + 1, 0),
            Head::Parts(i) => {
                let both = self.need_of_two(at + 2, 2)?;
                Some((i as u32 + 1).max(both))
            }
            Head::Bind => self.need_of_two(at + 1, 1),
            Head::Call(f, n) => {
                if self.takes_args(f, n) {
                    self.need_of_all(at + 3, n)
                } else {
                    None
                }
            }
        }
    }

    // The need of the expression at a place as a word of the table, which is right after that place: one more, or 0 if nothing is enough.
    fn need_word(&self, at: usize) -> u32
        ensures { (p : Prog) → Located self.now.expressions.bytes.now self.now.starts.now p → NeedsFrom p self.now.expressions.bytes.now self.now.words.now (at + 1) → Need p self.now.expressions.bytes.now at (need_of result) }
    {
        self.need_at(at).map_or(0, |need| need + 1)
    }

    // What the expression at a place needs, by the tables, of which that of needs is right after that place.
    fn need_at(&self, at: usize) -> Option<u32>
        ensures need { (p : Prog) → Located self.now.expressions.bytes.now self.now.starts.now p → NeedsFrom p self.now.expressions.bytes.now self.now.words.now (at + 1) → Need p self.now.expressions.bytes.now at result }
        ensures fits { IfSome result (λ n. n + 1 < 2 ^ 32) }
    {
        let head = head_at(self.expressions.bytes, at)?;
        self.need_of_head(at, head)
    }

    // Whether the body of the function that starts at a place is well-formed with its arguments in view.
    fn body_fits(&self, start: usize) -> bool
        requires { start + 1 < length self.now.expressions.bytes.now }
        ensures { (p : Prog) (g : Fun) → NeedsFrom p self.now.expressions.bytes.now self.now.words.now 0 → StandsAt self.now.expressions.bytes.now g start → result ≡ ok p g.args g.body }
    {
        let args = self.expressions.bytes[start] as u32;
        self.known_need(start + 1).is_some_and(|need| need <= args)
    }

    // Whether the bodies of all functions are.
    pub(crate) fn bodies_fit(&self) -> bool
        ensures { (p : Prog) → Located self.now.expressions.bytes.now self.now.starts.now p → NeedsFrom p self.now.expressions.bytes.now self.now.words.now 0 → result ≡ all_ok p p }
    {
        // No `all`: that its closure may be called at each start did not close, by `search` with `chains` or `grind` with `serving`.
        for &start in self.starts {
            if !self.body_fits(start as usize) {
                return false;
            }
        }
        true
    }
}

// Fills the table of needs, from the last byte to the first.
pub(crate) fn fill_needs(expressions: Expressions, starts: &[u32], needs: &mut [u32])
    requires bodies { (f : ℕ) → f < length starts.now → slice_index starts.now f + 1 < length expressions.bytes.now }
    requires room { length expressions.bytes.now ≤ length needs.old }
    ensures { (p : Prog) → Located expressions.entry.bytes.now starts.now p → NeedsFrom p expressions.entry.bytes.now needs.new 0 }
{
    for at in (0..expressions.bytes.len()).rev() {
        let word = Needs {
            expressions,
            starts,
            words: needs,
        }
        .need_word(at);
        needs[at] = word;
    }
}
