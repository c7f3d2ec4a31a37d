// The head, which goes in and comes back by value.
ghost use Rattle.std.specs.Prelude.{◌≡◌, [], ◌≤◌, length};
ghost use Rattle.models.specs.Faults.{usual_tolerance};
ghost use Rattle.models.specs.Limits.{most_components, most_places};
ghost use Rattle.mixture.specs.Lists.{padded};
ghost use Rattle.mixture.specs.Calls.{fresh_head, no_head, unset_head};

use models::faults::usual_tolerance;
use models::limits::{COMPONENTS, PLACES};

// The model's number is 0 for none, 1 Wilson, 2 UNIQUAC, 3 NRTL, 4 UNIFAC. Groups stand list after list.
// The model is a number, and T and the fractions have a flag beside them: any head of C's is taken, and given
// back bit for bit where a call is declined (`Declined` in specs/Writes.antt).
#[derive(Clone, Copy)]
pub struct Head {
    pub model: u8,
    pub n: usize,
    pub ng: usize,
    pub lens: [u8; COMPONENTS],
    pub groups: [u8; PLACES],
    pub t: f64,
    pub x: [f64; COMPONENTS],
    pub has_t: bool,
    pub has_x: bool,
    pub tolerance: f64,
}

// The items, with one more in the places past them.
pub fn padded<T: Copy, const N: usize>(items: &[T], rest: T) -> [T; N]
    requires { length items.now ≤ N }
    ensures { result ≡ padded N rest items.now }
{
    let mut all = [rest; N];
    all[..items.len()].copy_from_slice(items);
    all
}

// A head with a tolerance, T and fractions unset.
fn unset_head(
    tolerance: f64,
    model: u8,
    n: usize,
    ng: usize,
    lens: [u8; COMPONENTS],
    groups: [u8; PLACES],
) -> Head
    ensures { result ≡ unset_head tolerance model n ng lens groups }
{
    Head {
        model,
        n,
        ng,
        lens,
        groups,
        t: 0.0,
        x: [0.0; COMPONENTS],
        has_t: false,
        has_x: false,
        tolerance,
    }
}

// The head without a model.
pub fn no_head() -> Head
    ensures { result ≡ no_head }
{
    unset_head(0.0, 0, 0, 0, [0; COMPONENTS], [0; PLACES])
}

// The head of a load without lists.
pub fn bare_head(model: u8, n: usize) -> Head
    ensures { result ≡ fresh_head usual_tolerance model n 0 [] [] }
{
    unset_head(usual_tolerance(), model, n, 0, [0; COMPONENTS], [0; PLACES])
}

// The same with lists.
pub fn listed_head(model: u8, n: usize, ng: usize, lens: &[u8], groups: &[u8]) -> Head
    requires { (length lens.now ≤ most_components) × (length groups.now ≤ most_places) }
    ensures { result
        ≡ fresh_head usual_tolerance model n ng lens.now groups.now }
{
    unset_head(
        usual_tolerance(),
        model,
        n,
        ng,
        padded(lens, 0),
        padded(groups, 0),
    )
}
