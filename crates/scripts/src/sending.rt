// The counts that a list of choices leads to, found with sums of the newest ticks in 32 bits: one pass over them for each tick.

ghost use Rattle.std.specs.Prelude.{◌≡◌, ◌+◌, ◌-◌, ◌<◌, ◌≤◌, min, max, true, length, get_or};
ghost use Rattle.history.specs.States.{Legal};
ghost use Rattle.history.specs.Answers.{view_in};
ghost use Rattle.history.specs.Steps.{Slices};
ghost use Rattle.scripts.specs.Steps.{KeptSums, SendsFirst, SendsBy, ceilings_from, LowFigures, RaisedFrom, FiguresRaised};
ghost use Rattle.scripts.specs.Steps.{Signed, Ready, Entering, Entered};

use crate::sums::{Figures, MOST_SUMS, SUM_LIMIT, add_up};
use bounds::Curves;
use history::View;

// Figures are raised by as much as the largest sum that is kept: a raised figure less such a sum is a natural number, and below 2^31.
const OFFSET: u32 = SUM_LIMIT;

// Without ceilings: the largest count that is sent, and what no sum that is kept comes to with such a count.
const COUNT_LIMIT: u32 = 16_776_960;

const NO_CEILING: u32 = 1_073_741_824;

// The smallest and the largest count that the next tick can have, both raised. There is none where `hi` is below `lo`: two
// numbers and no `Option`, since the loop over the windows that makes them (`enter`) has no branch.
#[derive(Clone, Copy)]
struct Limits {
    lo: u32,
    hi: u32,
}

// Sends for the choices, from the first on, as long as sums stay within 32 bits and there is a count. The counts go to the front of
// `counts`, and their number is given back. Entries behind them stay.
pub(crate) fn send_first(view: View, choices: &[u32], counts: &mut [u32]) -> usize
    requires slices { Slices view.curves.upper.now view.curves.lower.now view.ticks.now }
    requires legal { Legal (view_in view) }
    requires counts_len { length counts.old ≡ length choices.now }
    ensures { SendsFirst (view_in view.entry) choices.now counts.old counts.new result }
{
    let View { curves, ticks } = view;
    let h = curves.upper.len();
    let mut ceilings = lists::zeros();
    let mut leasts = lists::zeros();
    let mut sums = [0u32; MOST_SUMS];
    raise_ceilings(curves, &mut ceilings[..h]);
    raise(curves.lower, &mut leasts[..h]);
    let figures = Figures {
        ceilings: &ceilings[..h],
        leasts: &leasts[..h],
    };
    send(figures, ticks, &mut sums[..h + 1], choices, counts)
}

// The ceilings raised, that of the longest window first; without ceilings, figures that bind no window but that of one tick.
fn raise_ceilings(curves: Curves, raised: &mut [u32])
    requires in_bounds { (1 ≤ length curves.upper.now) × (length raised.old ≡ length curves.upper.now) }
    requires low_figures { LowFigures (length curves.upper.now) (ceilings_from curves.unlimited curves.upper.now) }
    ensures { RaisedFrom (length curves.entry.upper.now) (ceilings_from curves.entry.unlimited curves.entry.upper.now) raised.new }
{
    if curves.unlimited {
        raise_none(raised);
    } else {
        raise(curves.upper, raised);
    }
}

// Figures raised, that of the longest window first.
fn raise(figures: &[u32], raised: &mut [u32])
    requires raised_len { length raised.old ≡ length figures.now }
    requires low_figures { LowFigures (length figures.now) (λ i. get_or figures.now i 0) }
    ensures { RaisedFrom (length figures.now) (λ i. get_or figures.now i 0) raised.new }
{
    let h = figures.len();
    for i in 0..h {
        raised[i] = figures[h - 1 - i] + OFFSET;
    }
}

// What stands for raised ceilings where there are none.
fn raise_none(raised: &mut [u32])
    requires { 1 ≤ length raised.old }
    ensures { RaisedFrom (length raised.old) (ceilings_from true raised.old) raised.new }
{
    let last = raised.len() - 1;
    raised.fill(NO_CEILING + OFFSET);
    raised[last] = COUNT_LIMIT + OFFSET;
}

// By the raised figures; `sums` is for the sums of the ticks.
fn send(
    figures: Figures,
    ticks: &[u32],
    sums: &mut [u32],
    choices: &[u32],
    counts: &mut [u32],
) -> usize
    requires figures_raised { FiguresRaised figures.ceilings.now figures.leasts.now × (length ticks.now < length figures.ceilings.now) }
    requires sums_len { (length sums.old ≡ length figures.ceilings.now + 1) × (get_or sums.old (length figures.ceilings.now) 0 ≡ 0) }
    requires counts_len { length counts.old ≡ length choices.now }
    ensures { SendsBy figures.entry.ceilings.now figures.entry.leasts.now ticks.now choices.now
        counts.old counts.new result }
{
    if !add_up(ticks, sums) {
        return 0;
    }
    let limits = narrow(figures, ticks, sums);
    send_on(figures, ticks, sums, limits, choices, counts)
}

// The limits of the tick after `ticks`, whose sums these are: window after window, the shortest first, since reading a sum that was stored
// just now has to wait.
fn narrow(figures: Figures, ticks: &[u32], sums: &[u32]) -> Limits
    requires figures_raised { FiguresRaised figures.ceilings.now figures.leasts.now × (length ticks.now < length figures.ceilings.now) }
    requires sums_len { (length sums.now ≡ length figures.ceilings.now + 1) × KeptSums ticks.now (length ticks.now) sums.now }
    ensures { Ready figures.entry.ceilings.now figures.entry.leasts.now ticks.now (length ticks.now)
        sums.now result.lo result.hi }
{
    let Figures { ceilings, leasts } = figures;
    let h = ceilings.len();
    let mut lo = leasts[h - 1];
    let mut hi = ceilings[h - 1];
    for d in 0..ticks.len() {
        let sum = sums[h - 1 - d];
        lo = larger(lo, leasts[h - 2 - d] - sum);
        hi = smaller(hi, ceilings[h - 2 - d] - sum);
    }
    Limits { lo, hi }
}

// One choice after the other. `first` is the place of the sum of all ticks that are held: at most one fewer than the horizon.
fn send_on(
    figures: Figures,
    ticks: &[u32],
    sums: &mut [u32],
    start: Limits,
    choices: &[u32],
    counts: &mut [u32],
) -> usize
    requires figures_raised { FiguresRaised figures.ceilings.now figures.leasts.now × (length ticks.now < length figures.ceilings.now) }
    requires ready { Ready figures.ceilings.now figures.leasts.now ticks.now (length ticks.now) sums.old start.lo start.hi }
    requires counts_len { length counts.old ≡ length choices.now }
    ensures { SendsBy figures.entry.ceilings.now figures.entry.leasts.now ticks.now choices.now
        counts.old counts.new result }
{
    let Figures { ceilings, leasts } = figures;
    let h = ceilings.len();
    let one = Limits {
        lo: leasts[h - 1],
        hi: ceilings[h - 1],
    };
    let mut first = h - ticks.len();
    let mut limits = start;
    for (i, choice) in choices.iter().enumerate() {
        let Limits { lo, hi } = limits;
        if hi < lo {
            return i;
        }
        let count = lo - OFFSET + *choice % (hi - lo + 1);
        if SUM_LIMIT - sums[first] < count {
            return i;
        }
        counts[i] = count;
        first = (first - 1).max(1);
        let longer = Figures {
            ceilings: &ceilings[first - 1..h - 1],
            leasts: &leasts[first - 1..h - 1],
        };
        limits = enter(&mut sums[first..h + 1], longer, count, one);
    }
    choices.len()
}

// A tick is entered: each sum becomes the next one plus its count. And the limits that the windows leave of these, of the next tick.
// This loop takes the time: it has no branch, so that the compiler takes several windows at once.
fn enter(sums: &mut [u32], figures: Figures, count: u32, limits: Limits) -> Limits
    requires { Entering sums.old figures.ceilings.now figures.leasts.now count limits.lo limits.hi }
    ensures { Entered sums.old figures.entry.ceilings.now figures.entry.leasts.now count limits.lo limits.hi
        sums.new result.lo result.hi }
{
    let Figures { ceilings, leasts } = figures;
    let Limits { mut lo, mut hi } = limits;
    for i in 0..ceilings.len() {
        let sum = sums[i + 1] + count;
        sums[i] = sum;
        lo = larger(lo, leasts[i] - sum);
        hi = smaller(hi, ceilings[i] - sum);
    }
    Limits { lo, hi }
}

// The larger and the smaller one of two numbers below 2^31, compared as signed ones. As unsigned ones the windows that are left over from
// those that the compiler takes at once need an instruction more each: at 16 windows a list took 6 in 100 longer so.
fn larger(a: u32, b: u32) -> u32
    requires { Signed a × Signed b }
    ensures { result ≡ max a b }
{
    if (a as i32) < (b as i32) { b } else { a }
}

fn smaller(a: u32, b: u32) -> u32
    requires { Signed a × Signed b }
    ensures { result ≡ min a b }
{
    if (a as i32) < (b as i32) { a } else { b }
}
