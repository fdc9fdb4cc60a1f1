// The 49 bounds of a difference-bound matrix: how each call writes and tests them.
ghost use Rattle.std.specs.Prelude.{◌≡◌, ℕ, ◌/◌, ◌%◌, ◌<◌, ◌≤◌, ◌==◌, ◌&&◌, length, slice_index_or};
ghost use Rattle.std.specs.List.{list_all, zip};
ghost use Rattle.zone.specs.declared.bound.Bound.TheVariants.{Free};
ghost use Rattle.zone.specs.declared.bound.Bound.{Bound};
ghost use Rattle.zone.specs.Bounds.{nil, size, implies, bound_of};
ghost use Rattle.zone.specs.DifferenceRows.{blank, closed, all_narrow};
ghost use Rattle.zone.specs.Tests.{every};
ghost use Rattle.zone.specs.Grids.{Grid, entry, listed, whole_grid, elapsed_grid, reset_grid, tightened_grid, fits, triangle};

use crate::bound::Bound;
use crate::constraint::Constraint;

// No constant of a matrix is further from 0.
const LIMIT: u32 = 1_000_000;

// The 49 bounds that the rule gives, row by row. Two loops: one over the 49 places would divide at each, and `array::from_fn` copies the array besides.
fn grid<F: Fn(usize, usize) -> Bound>(rule: F) -> [Bound; 49]
    requires { (p q : ℕ) → p < 7 → q < 7 → F.pre rule p q }
    ensures { (d : Grid) → ((p q : ℕ) (b : Bound) → p < 7 → q < 7 → F.post rule p q b → b ≡ d p q) → result ≡ listed d }
{
    let mut bounds = [Bound::Free; 49];
    for p in 0..7 {
        for q in 0..7 {
            bounds[7 * p + q] = rule(p, q);
        }
    }
    bounds
}

pub(super) fn whole(clocks: u8) -> [Bound; 49]
    ensures { result ≡ listed (whole_grid clocks) }
{
    let n = usize::from(clocks);
    grid(|p, q| {
        if p <= n && q <= n && (p == 0 || p == q) {
            Bound::ZERO
        } else {
            Bound::Free
        }
    })
}

// No clock has an upper bound any more.
pub(super) fn elapsed(bounds: &[Bound; 49]) -> [Bound; 49]
    ensures { result ≡ listed (elapsed_grid (entry bounds.now)) }
{
    grid(|p, q| {
        if p > 0 && q == 0 {
            Bound::Free
        } else {
            bounds[7 * p + q]
        }
    })
}

// The clock's row and column are those of 0.
pub(super) fn reset(bounds: &[Bound; 49], clock: u8) -> [Bound; 49]
    ensures { result ≡ listed (reset_grid (entry bounds.now) clock) }
{
    let in_place = |x: usize| if x == usize::from(clock) { 0 } else { x };
    grid(|p, q| bounds[7 * in_place(p) + in_place(q)])
}

// Each bound, or the sum by way of the bound that the constraint sets.
pub(super) fn tightened(bounds: &[Bound; 49], constraint: Constraint) -> [Bound; 49]
    requires within { (constraint.i < 7) × (constraint.j < 7) × (size (bound_of constraint) ≤ 10000) }
    requires small { (h : ℕ) → size (slice_index_or bounds.now h Free) ≤ 1000000 }
    ensures { result ≡ listed (tightened_grid (entry bounds.now) constraint.i constraint.j (bound_of constraint)) }
{
    let (i, j) = (usize::from(constraint.i), usize::from(constraint.j));
    let bound = Bound::from(constraint);
    grid(|p, q| {
        let via = bounds[7 * p + i].plus(bound).plus(bounds[7 * j + q]);
        bounds[7 * p + q].tighter(via)
    })
}

// Whether no bound says anything, as in an empty row.
#[tactic(auto, unfolding(crate::specs::DifferenceRows::blank))]
pub(super) fn is_blank(bounds: &[Bound; 49]) -> bool
    ensures value { result ≡ blank bounds.now }
    ensures long { length bounds.now ≡ 49 }
{
    bounds.iter().all(|bound| Bound::Free.implies(*bound))
}

#[tactic(auto, unfolding(crate::specs::DifferenceRows::all_narrow))]
pub(super) fn are_narrow(bounds: &[Bound; 49]) -> bool
    ensures { result ≡ all_narrow bounds.now }
{
    bounds.iter().all(|bound| bound.is_within(LIMIT))
}

// Whether no bound is tighter than ≤ 0.
pub(super) fn hold_zero(bounds: &[Bound; 49]) -> bool
    ensures { result ≡ list_all (implies nil) bounds.now }
{
    bounds.iter().all(|bound| Bound::ZERO.implies(*bound))
}

// Whether each bound is at least as tight as the other's.
pub(super) fn imply(bounds: &[Bound; 49], others: &[Bound; 49]) -> bool
    ensures { result ≡ list_all (λ p. implies p.0 p.1) (zip bounds.now others.now) }
{
    bounds
        .iter()
        .zip(others)
        .all(|(bound, other)| bound.implies(*other))
}

// Whether a closed matrix can have this bound of x_p − x_q.
fn fits_at(clocks: u8, p: usize, q: usize, bound: Bound) -> bool
    ensures { result ≡ fits clocks p q bound }
{
    let n = usize::from(clocks);
    if p > n || q > n {
        return bound == Bound::Free;
    }
    if p == q {
        return bound == Bound::ZERO;
    }
    bound.is_within(LIMIT) && (p > 0 || bound.implies(Bound::ZERO))
}

#[tactic(auto, unfolding(crate::specs::Tests::every))]
// By number, since with `enumerate` the proof did not close.
fn all_fit(clocks: u8, bounds: &[Bound; 49]) -> bool
    ensures { result ≡ every (λ k. fits clocks (k / 7) (k % 7) (slice_index_or bounds.now k Free)) 49 }
{
    (0..49).all(|k| fits_at(clocks, k / 7, k % 7, bounds[k]))
}

// Whether no sum of two bounds is tighter than the bound from end to end.
#[tactic(auto, unfolding(crate::specs::Tests::every, crate::specs::Grids::entry))]
fn triangles_hold(bounds: &[Bound; 49]) -> bool
    requires { (h : ℕ) → size (slice_index_or bounds.now h Free) ≤ 1000000 }
    ensures { result ≡ every (λ k. triangle (entry bounds.now) (k / 49) (k / 7 % 7) (k % 7)) 343 }
{
    (0..343).all(|k| {
        let (p, q, r) = (k / 49, k / 7 % 7, k % 7);
        bounds[7 * p + r].implies(bounds[7 * p + q].plus(bounds[7 * q + r]))
    })
}

#[tactic(auto, unfolding(crate::specs::DifferenceRows::closed))]
pub(super) fn are_closed(clocks: u8, bounds: &[Bound; 49]) -> bool
    ensures { result ≡ (length bounds.now == 49 && closed clocks bounds.now) }
{
    all_fit(clocks, bounds) && triangles_hold(bounds)
}
