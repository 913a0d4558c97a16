ghost use Rattle.std.specs.Prelude.{ℕ, ◌+◌, ◌*◌, ◌^◌, ◌<◌, ◌≤◌, length, Some, slice_index};
ghost use Rattle.std.proofs.Math.Option.{none};
ghost use Rattle.callgraph.specs.Pending.{PartsWait};
ghost use Rattle.callgraph.specs.Standing.{StandAll, Stands, hop};
ghost use Rattle.lang.specs.Program.{max_args};
ghost use Rattle.origins.specs.Origins.{origin_from};
ghost use Rattle.origins.specs.Views.{Noted, SameNote};
ghost use Rattle.reading.specs.Heads.{HeadAt, width_of};

use super::expressions::end_of;
use super::scope::Scope;
use origins::origin::origin_at;
use origins::view::{View, note};
use reading::head::Head;

impl Scope<'_> {
    /// Notes what the second of two expressions sees, and that the first sees the variables around that.
    pub fn note_two(&self, views: &mut [u32], at: usize, second: View)
        requires there { at < length self.now.script.ends.now }
        requires forward { at < slice_index self.now.script.ends.now at }
        requires room { 2 * slice_index self.now.script.ends.now at + 2 ≤ length views.old }
        requires fits { second.outer < 2 ^ 29 }
        requires few { second.new ≤ 2 }
        ensures first { Noted views.new at second.outer 0 none }
        ensures next { Noted views.new (slice_index self.now.script.ends.now at) second.outer second.new (origin_from second.origin) }
        ensures others { (j : ℕ) → slice_index self.now.script.ends.now at < j → SameNote views.old views.new j }
    {
        note(views, at, View::plain(second.outer));
        note(views, self.script.ends[at] as usize, second);
    }

    /// Notes that each of n expressions sees the variables in view.
    pub fn note_all(&self, views: &mut [u32], at: usize, n: u8)
        requires stand { StandAll self.now.script.bytes.now (length self.now.known.now) at n }
        requires room { 2 * length self.now.script.bytes.now ≤ length views.old }
        requires fits { length self.now.known.now < 2 ^ 29 }
        ensures noted { (i : ℕ) → i < n → Noted views.new (hop self.now.script.ends.now at i) (length self.now.known.now) 0 none }
        ensures others { (j : ℕ) → hop self.now.script.ends.now at n ≤ j → SameNote views.old views.new j }
    {
        let mut start = at;
        for _i in 0..n {
            let end = end_of(&self.script, start);
            note(views, start, View::plain(self.known.len() as u32));
            start = end;
        }
    }

    /// Notes what the parts of the expression at a place see.
    pub fn note_parts(&self, views: &mut [u32], at: usize, head: Head)
        requires room { 2 * length self.now.script.bytes.now ≤ length views.old }
        requires head { HeadAt self.now.script.bytes.now at (Some head) }
        requires stands { Stands self.now.script.bytes.now (length self.now.known.now) at }
        requires few { length self.now.known.now ≤ max_args + at }
        ensures { PartsWait self.now.script.bytes.now (length self.now.known.now) at (at + width_of head) self.now.known.now views.old views.new }
    {
        let inside = at + head.width();
        let vars = self.known.len() as u32;
        match head {
            Head::Var(_) | Head::Leaf => {}
            Head::Node => self.note_two(views, inside, View::plain(vars)),
            Head::Parts(i) => {
                let second = View {
                    outer: vars,
                    new: 2,
                    origin: origin_at(self.known, i as u32).part(),
                };
                self.note_two(views, inside, second);
            }
            Head::Bind => {
                let second = View {
                    outer: vars,
                    new: 1,
                    origin: self.origin_of(inside),
                };
                self.note_two(views, inside, second);
            }
            Head::Call(_, n) => self.note_all(views, inside, n),
        }
    }
}
