// One round of a pair of arrival curves: every figure anew, the best that the old ones imply.
// The figure of a window of d ticks stands at index d - 1 of its slice, and at d + 3 of a row.

ghost use Rattle.std.specs.Prelude.{◌≡◌, ◌+◌, ◌-◌, ◌≤◌, length};
ghost use Rattle.laws.specs.Ranges.{table};
ghost use Rattle.curves.specs.Pairs.{figure, pair_of};
ghost use Rattle.curves.specs.Rounds.{cut_off, round};
ghost use Rattle.bounds.specs.Bounds.{max_horizon, Bounded};
ghost use Rattle.closure.specs.Steps.{Ready, lift, NoneAbove, RowOf};

use crate::convolution;
use crate::convolution::LIFT;

// What sums and differences are lifted by, or taken from: 2^26.
const TWO_LIFTS: u32 = 2 * LIFT;
// What stands in a row where it has no window.
const NO_FIGURE: u32 = 4 * LIFT;
// A row for the longest horizon: four places more at either end.
const ROW: usize = 264;

// Puts a round of the pair of `upper` and `lower` into `new_upper` and `new_lower`. Ceilings plus 2^25, and 2^25 less the leasts, are
// tightened alike: the better figure is the smaller, and a difference is a sum. Four passes, `convolve` and `deconvolve` of either curve;
// `upper_is` and `lower_is` (proofs/Tightening) are the law that ties them to the round.
pub(crate) fn compute(upper: &[u32], lower: &[u32], new_upper: &mut [u32], new_lower: &mut [u32])
    requires { Ready (pair_of upper.now lower.now) (pair_of new_upper.old new_lower.old) }
    ensures { pair_of new_upper.new new_lower.new
        ≡ round cut_off (pair_of upper.now lower.now) }
{
    let upper_row = lifted_row(upper);
    let lower_row = turned_row(lower);
    convolution::tighten(&upper_row, &lower_row, new_upper);
    convolution::tighten(&lower_row, &upper_row, new_lower);
    unlift(new_upper);
    turn_back(new_lower);
}

// A row of ceilings, each plus 2^25. This and the next, and the two that undo them, stay two functions: the contract of one that takes what
// differs as a closure would have to speak of that, and would be no plainer.
fn lifted_row(upper: &[u32]) -> [u32; ROW]
    requires { (length upper.now ≤ max_horizon) × Bounded upper.now }
    ensures { RowOf (λ d. figure 0 upper.now d + lift) (length upper.now) result }
{
    let mut row = [NO_FIGURE; ROW];
    for (i, ceiling) in upper.iter().enumerate() {
        row[i + 4] = *ceiling + LIFT;
    }
    row
}

// A row of leasts, each taken from 2^25.
fn turned_row(lower: &[u32]) -> [u32; ROW]
    requires { (length lower.now ≤ max_horizon) × Bounded lower.now }
    ensures { RowOf (λ d. lift - figure 0 lower.now d) (length lower.now) result }
{
    let mut row = [NO_FIGURE; ROW];
    for (i, least) in lower.iter().enumerate() {
        row[i + 4] = LIFT - *least;
    }
    row
}

// Takes 2^26 off each entry, down to 0: where a ceiling is negative, some window crosses in this very round, cut off or not
// (`CutOffArrives`, `CutOffCrosses`).
fn unlift(list: &mut [u32])
    ensures { list.new
        ≡ table (λ d. figure 0 list.old d - (lift + lift)) (length list.old) }
{
    for entry in list {
        *entry = entry.saturating_sub(TWO_LIFTS);
    }
}

// Takes each entry from 2^26.
fn turn_back(list: &mut [u32])
    requires { NoneAbove (lift + lift) list.old }
    ensures { list.new
        ≡ table (λ d. (lift + lift) - figure 0 list.old d) (length list.old) }
{
    for entry in list {
        *entry = TWO_LIFTS - *entry;
    }
}
