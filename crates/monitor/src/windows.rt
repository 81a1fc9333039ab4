// The windows that end at a tick: which is outside its figures, and how much each leaves.

ghost use Rattle.std.specs.Prelude.{◌≡◌, ◌+◌, ◌<◌, ◌≤◌, length, slice_index, Ok};
ghost use Rattle.laws.specs.Tests.{Tells};
ghost use Rattle.curves.specs.Pairs.{pair_of};
ghost use Rattle.curves.specs.Ticks.{then, Keeps};
ghost use Rattle.curves.specs.Margins.{Tightest};
ghost use Rattle.bounds.specs.Answers.{curves_in};
ghost use Rattle.history.specs.Answers.{view_in};
ghost use Rattle.history.specs.Steps.{Slices, view_with};
ghost use Rattle.monitor.specs.declared.Verdict.TheVariants.{Passed};
ghost use Rattle.monitor.specs.Monitoring.{monitor_view, closed_in, judged, verdict_on};
ghost use Rattle.monitor.specs.Answers.{ruling_of};
ghost use Rattle.monitor.specs.Steps.{margin_as, margin_with, tighter_of, outside_with, window_limit, Fits};
ghost use Rattle.monitor.specs.Steps.{FoundOf, unjudged_as, MeasuredOf, GivenOf, ClosedOf};

use crate::Verdict;
use bounds::Curves;
use history::{BadState, View};

// The largest figure.
const FIGURE_LIMIT: u32 = 16_776_960;

// What is found of a tick.
#[derive(Clone, Copy)]
pub(crate) struct Finding {
    pub(crate) verdict: Result<Verdict, BadState>,
    pub(crate) margin: Margin,
}

// A margin, and the window that has it.
#[derive(Clone, Copy)]
pub(crate) struct Margin {
    pub(crate) value: i64,
    pub(crate) window: usize,
}

// Where no window is judged there is no margin: 0, of no window.
pub(crate) fn unjudged(verdict: Result<Verdict, BadState>) -> Finding
    ensures { result ≡ unjudged_as verdict }
{
    let margin = Margin {
        value: 0,
        window: 0,
    };
    Finding { verdict, margin }
}

// The verdict and the margin by the figures as given, and then, where there are ceilings, by the closed ones.
pub(crate) fn examine(view: View, closed: Curves, failed: bool, count: u32) -> Finding
    requires given { Slices view.curves.upper.now view.curves.lower.now view.ticks.now }
    requires closed { Slices closed.upper.now closed.lower.now view.ticks.now }
    ensures { FoundOf (monitor_view (view_in view.entry)
        (closed_in (view_in view.entry).pair (pair_of closed.entry.upper.now closed.entry.lower.now)) failed)
        count result }
{
    let View {
        curves: Curves {
            upper,
            lower,
            unlimited,
        },
        ticks,
    } = view;
    let given = by_given(upper, lower, unlimited, ticks, failed, count);
    if unlimited {
        return given;
    }
    by_closed(given, closed.upper, closed.lower, ticks, count)
}

// Question 12 of the figures as given, then the failed mark, and then the windows. The margin tells whether the tick keeps the figures:
// only where it does not are these gone through again, for the shortest window outside. The lists are loose, and the function is not joined
// with its caller: behind references in a struct the compiler copies the arrays of a state, and a tick of one window takes four times as
// long.
#[inline(never)]
fn by_given(
    upper: &[u32],
    lower: &[u32],
    unlimited: bool,
    ticks: &[u32],
    failed: bool,
    count: u32,
) -> Finding
    requires { Slices upper.now lower.now ticks.now }
    ensures { GivenOf (view_with upper.now lower.now unlimited ticks.now) failed count result }
{
    let curves = Curves {
        upper,
        lower,
        unlimited,
    };
    if !curves.within(FIGURE_LIMIT) {
        return unjudged(Err(BadState));
    }
    if failed {
        return unjudged(Ok(Verdict::AlreadyFailed));
    }
    let view = View { curves, ticks };
    let margin = find_tightest(view, count);
    let verdict = if margin.value < 0 {
        judge(view, count)
    } else {
        Verdict::Passed
    };
    Finding {
        verdict: Ok(verdict),
        margin,
    }
}

// Question 12 of the closed figures, and then the windows by them: a tick that passes by the figures as given is lost where it does not
// keep these. The lists are loose for the same reason.
#[inline(never)]
fn by_closed(given: Finding, upper: &[u32], lower: &[u32], ticks: &[u32], count: u32) -> Finding
    requires slices { Slices upper.now lower.now ticks.now }
    requires fits { given.verdict ≡ Ok Passed → Fits ticks.now count }
    ensures { ClosedOf given (pair_of upper.now lower.now) (then ticks.now count) result }
{
    let closed = Curves {
        upper,
        lower,
        unlimited: false,
    };
    if !closed.within(FIGURE_LIMIT) {
        return unjudged(Err(BadState));
    }
    match given.verdict {
        Ok(Verdict::Passed) if !keeps(closed, ticks, count) => Finding {
            verdict: Ok(Verdict::Lost),
            ..given
        },
        _ => given,
    }
}

// Window after window, the shortest first; `sum` has the new tick and the d before it, and the loop breaks with what is said of the first
// that is outside. It is called where some window is, and then names one.
fn judge(view: View, count: u32) -> Verdict
    requires { Slices view.curves.upper.now view.curves.lower.now view.ticks.now }
    ensures { ruling_of result ≡ judged (verdict_on (view_in view.entry) count) }
{
    let View { curves, ticks } = view;
    let held = ticks.len();
    let mut sum = count as u64;
    let mut d = 0;
    // Stays a `loop`: document 01 has the first window that is outside yielded by its `break`.
    'windows: loop {
        if let Some(verdict) = outside(curves, d, sum) {
            break verdict;
        }
        if held <= d {
            break Verdict::Passed;
        }
        sum += ticks[held - 1 - d] as u64;
        d += 1;
    }
}

// What is said of the window of d + 1 ticks, which have this sum, where it is outside its figures, as its margin tells. Where the figures
// cross it may be outside both ways: 'too many' is looked at first, where there are ceilings.
fn outside(curves: Curves, d: usize, sum: u64) -> Option<Verdict>
    requires place { (d < length curves.upper.now) × (length curves.lower.now ≡ length curves.upper.now) }
    requires small { sum ≤ window_limit }
    ensures { result ≡ outside_with curves.entry.unlimited (slice_index curves.entry.upper.now d)
        (slice_index curves.entry.lower.now d) sum (d + 1) }
{
    if 0 <= margin_at(curves, d, sum).value {
        return None;
    }
    if !curves.unlimited & ((curves.upper[d] as u64) < sum) {
        return Some(Verdict::TooMany { window: d + 1 });
    }
    Some(Verdict::TooFew { window: d + 1 })
}

// The smallest margin over the same windows, two of them a turn. A later one takes its place only where it is smaller, so the window is the
// shortest.
fn find_tightest(view: View, count: u32) -> Margin
    requires { Slices view.curves.upper.now view.curves.lower.now view.ticks.now }
    ensures { Tightest (view_in view.entry).pair (then view.entry.ticks.now count) (margin_as result) }
{
    let View { curves, ticks } = view;
    let held = ticks.len();
    let mut sum = count as u64;
    let mut best = margin_at(curves, 0, sum);
    for turn in 0..held / 2 {
        let d = 2 * turn;
        let one = sum + ticks[held - 1 - d] as u64;
        sum = one + ticks[held - 2 - d] as u64;
        best = tighter(best, margin_at(curves, d + 1, one));
        best = tighter(best, margin_at(curves, d + 2, sum));
    }
    if held % 2 == 0 {
        return best;
    }
    tighter(best, margin_at(curves, held, sum + ticks[0] as u64))
}

// The smaller of a margin and that of another window; the first where they are equal.
fn tighter(best: Margin, other: Margin) -> Margin
    ensures { result ≡ tighter_of best other }
{
    if other.value < best.value {
        other
    } else {
        best
    }
}

// The margin of the window of d + 1 ticks, which have this sum: the smaller of ceiling minus sum and sum minus least, and without ceilings
// the latter. It is negative where the sum is outside.
fn margin_at(curves: Curves, d: usize, sum: u64) -> Margin
    requires place { (d < length curves.upper.now) × (length curves.lower.now ≡ length curves.upper.now) }
    requires small { sum ≤ window_limit }
    ensures { result ≡ record {
      value = margin_with curves.entry.unlimited (slice_index curves.entry.upper.now d)
          (slice_index curves.entry.lower.now d) sum;
      window = d + 1;
    } }
{
    let total = sum as i64;
    let above = curves.upper[d] as i64 - total;
    let below = total - curves.lower[d] as i64;
    let value = if !curves.unlimited & (above <= below) {
        above
    } else {
        below
    };
    Margin {
        value,
        window: d + 1,
    }
}

// Whether every window keeps its figures, two of them a turn. The sums are known to fit 32 bits.
fn keeps(curves: Curves, ticks: &[u32], count: u32) -> bool
    requires slices { Slices curves.upper.now curves.lower.now ticks.now }
    requires fits { Fits ticks.now count }
    ensures { Tells result
        (Keeps (pair_of curves.entry.upper.now curves.entry.lower.now) (then ticks.now count)) }
{
    if !inside(curves, 0, count) {
        return false;
    }
    let held = ticks.len();
    let mut sum = count;
    for turn in 0..held / 2 {
        let d = 2 * turn;
        let one = sum + ticks[held - 1 - d];
        sum = one + ticks[held - 2 - d];
        if !(inside(curves, d + 1, one) & inside(curves, d + 2, sum)) {
            return false;
        }
    }
    held % 2 == 0 || inside(curves, held, sum + ticks[0])
}

// Whether the sum of the window of d + 1 ticks is from its least to its ceiling.
fn inside(curves: Curves, d: usize, sum: u32) -> bool
    requires { (d < length curves.upper.now) × (length curves.lower.now ≡ length curves.upper.now) }
    ensures { Tells result ((slice_index curves.entry.lower.now d ≤ sum) × (sum ≤ slice_index curves.entry.upper.now d)) }
{
    (curves.lower[d] <= sum) & (sum <= curves.upper[d])
}
