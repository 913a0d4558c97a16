ghost use Rattle.std.specs.Prelude.{◌≡◌, ℕ, ◌+◌, ◌*◌, ◌^◌, ◌<◌, ◌≤◌, length, ◌≢◌, slice_index};
ghost use Rattle.origins.specs.Origins.{in_view, origin_from, origin_of, word_of};
ghost use Rattle.origins.specs.declared.origin.Origin.TheVariants.{Unknown};
ghost use Rattle.origins.specs.Views.{Noted, SameNote, newer, word_at};

use super::origin::Origin;

/// What an expression sees: the variables around it, and so many new ones of one origin.
#[derive(Clone, Copy, Debug, PartialEq)]
pub struct View {
    pub outer: u32,
    pub new: u32,
    pub origin: Origin,
}

impl View {
    /// No new variables.
    pub fn plain(vars: u32) -> View
        ensures outer { result.outer ≡ vars }
        ensures new { result.new ≡ 0 }
        ensures origin { result.origin ≡ Unknown }
    {
        View {
            outer: vars,
            new: 0,
            origin: Origin::Unknown,
        }
    }
}

/// Words of a note.
const WIDTH: usize = 2;
/// More than the most new variables.
const NEW: u32 = 4;

/// Notes what the expression that starts at a place sees. Memory is lent, two words for each byte, so both counts share one.
pub fn note(views: &mut [u32], at: usize, view: View)
    requires room { 2 * at + 2 ≤ length views.old }
    requires few { view.new ≤ 2 }
    requires fits { view.outer < 2 ^ 29 }
    ensures noted { Noted views.new at view.outer view.new (origin_from view.origin) }
    ensures word { word_at views.new at ≡ word_of view.origin }
    ensures others { (j : ℕ) → (j ≢ at) → SameNote views.old views.new j }
{
    views[WIDTH * at] = view.outer * NEW + view.new;
    views[WIDTH * at + 1] = view.origin.into();
}

/// What the expression that starts at a place sees, as it was noted.
pub fn view_at(views: &[u32], at: usize) -> View
    requires { 2 * at + 2 ≤ length views.now }
    ensures noted { Noted views.now at result.outer result.new (origin_from result.origin) }
    ensures origin { result.origin ≡ origin_of (word_at views.now at) }
{
    let count = views[WIDTH * at];
    View {
        outer: count / NEW,
        new: count % NEW,
        origin: Origin::from(views[WIDTH * at + 1]),
    }
}

/// Brings the new variables into view, and says how many are in view then.
pub fn open(known: &mut [u32], view: View) -> u32
    requires few { view.new ≤ 2 }
    requires within { view.outer + 2 ≤ length known.old }
    requires fits { view.outer < 2 ^ 29 }
    ensures number { result ≡ view.outer + view.new }
    ensures opened { in_view known.new result ≡ newer view.new (origin_from view.origin) (in_view known.old view.outer) }
    ensures kept { (j : ℕ) → j < view.outer → slice_index known.new j ≡ slice_index known.old j }
{
    let outer = view.outer as usize;
    let word = view.origin.into();
    known[outer] = word;
    known[outer + 1] = word;
    view.outer + view.new
}
