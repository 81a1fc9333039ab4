// How many counts pass on a monitor, told by sums that are kept from tick to tick: a monitor that judges one tick at a time adds up every
// window anew.

ghost use Rattle.std.specs.Prelude.{◌≡◌, ◌+◌, ◌≤◌, ◌<◌, length};
ghost use Rattle.laws.specs.Tests.{Tells};
ghost use Rattle.history.specs.Steps.{Slices};
ghost use Rattle.monitor.specs.Monitoring.{LegalMonitor};
ghost use Rattle.scripts.specs.Steps.{sum_limit, KeptSums, strict_ceiling, strict_least, TurnedBy, monitor_in};
ghost use Rattle.scripts.specs.Steps.{LaterKept, Placed, Grown, GrownTwice, KeepFirst, KeepOn, PassesFirst};

use crate::sums;
use crate::sums::{Figures, MOST_SUMS, SUM_LIMIT};
use bounds::Curves;
use history::View;

// How many counts, from the first on, certainly pass on a monitor that has not failed: all of them, or as many as are told by sums in 32
// bits, two at a time. A tick passes where it keeps both the figures as given and the closed ones, so the stricter of the two are looked
// at alone.
pub(crate) fn count_passing(view: View, closed: Curves, counts: &[u32]) -> usize
    requires slices { Slices view.curves.upper.now view.curves.lower.now view.ticks.now }
    requires closed_slices { Slices closed.upper.now closed.lower.now view.ticks.now }
    requires closed_len { length closed.upper.now ≡ length view.curves.upper.now }
    requires legal_monitor { LegalMonitor (monitor_in view closed) }
    ensures { PassesFirst (monitor_in view.entry closed.entry) counts.now result }
{
    let View { curves, ticks } = view;
    let h = curves.upper.len();
    let mut sums = [0u32; MOST_SUMS];
    if !sums::add_up(ticks, &mut sums[..h + 1]) {
        return 0;
    }
    let mut ceilings = lists::zeros();
    let mut leasts = lists::zeros();
    turn(curves.upper, closed.upper, &mut ceilings, |given, closed| {
        strict_ceiling(curves.unlimited, given, closed)
    });
    turn(curves.lower, closed.lower, &mut leasts, |given, closed| {
        strict_least(curves.unlimited, given, closed)
    });
    let figures = Figures {
        ceilings: &ceilings[..h],
        leasts: &leasts[..h],
    };
    pass(figures, &mut sums[..h + 1], ticks, counts)
}

// Figures turned round, the stricter of the two of each window, a given and a closed one. The array is lent: one that is handed back is
// copied, which a list of one count would feel.
fn turn<F: Fn(u32, u32) -> u32>(given: &[u32], closed: &[u32], strict: &mut [u32], stricter: F)
    requires callable { F.IsAlwaysCallable stricter }
    requires room { (length given.now ≤ length strict.old) × (length closed.now ≡ length given.now) }
    ensures { TurnedBy (F.post stricter) given.now closed.now strict.new }
{
    let h = given.len();
    for i in 0..h {
        strict[i] = stricter(given[h - 1 - i], closed[h - 1 - i]);
    }
}

// The lower ceiling of a window; where the pair has none, what no kept sum is above.
fn strict_ceiling(unlimited: bool, given: u32, closed: u32) -> u32
    ensures { result ≡ strict_ceiling unlimited given closed }
{
    if unlimited {
        SUM_LIMIT
    } else {
        given.min(closed)
    }
}

// The higher least of a window; where the pair has no ceilings nothing is closed, and the given one counts.
fn strict_least(unlimited: bool, given: u32, closed: u32) -> u32
    ensures { result ≡ strict_least unlimited given closed }
{
    if unlimited { given } else { given.max(closed) }
}

// Adds count after count to the sums of the ticks before them, until a window is outside its figures, or a count is above the limit of the
// sums: gives back how many it knows to be before that. `first` is the place of the longest window that is judged; once that is the
// horizon, two counts are added at a time, and counted both or neither.
fn pass(figures: Figures, sums: &mut [u32], ticks: &[u32], counts: &[u32]) -> usize
    requires placed { Placed sums.old figures.ceilings.now figures.leasts.now }
    requires ticks_in_bounds { length ticks.now < length figures.ceilings.now }
    requires kept_sums { KeptSums ticks.now (length ticks.now) sums.old }
    ensures { KeepFirst figures.entry.ceilings.now figures.entry.leasts.now ticks.now counts.now result }
{
    let mut first = figures.ceilings.len() - 1 - ticks.len();
    for (i, count) in counts.iter().enumerate() {
        if first == 0 {
            return i + pass_on(figures, sums, &counts[i..]);
        }
        if SUM_LIMIT < *count {
            return i;
        }
        let judged = Figures {
            ceilings: &figures.ceilings[first..],
            leasts: &figures.leasts[first..],
        };
        if !grow(&mut sums[first..], judged, *count) {
            return i;
        }
        first -= 1;
    }
    counts.len()
}

// The same where the windows of all lengths are judged. A pair of counts one of which does not pass is given up whole.
fn pass_on(figures: Figures, sums: &mut [u32], counts: &[u32]) -> usize
    requires placed { Placed sums.old figures.ceilings.now figures.leasts.now }
    requires in_bounds { (1 ≤ length figures.ceilings.now) × LaterKept sums.old }
    ensures { KeepOn figures.entry.ceilings.now figures.entry.leasts.now sums.old counts.now result }
{
    for pair in 0..counts.len() / 2 {
        let one = counts[2 * pair];
        let two = counts[2 * pair + 1];
        if !((one <= SUM_LIMIT) & (two <= SUM_LIMIT)) {
            return 2 * pair;
        }
        if !grow_twice(sums, figures, one, two) {
            return 2 * pair;
        }
    }
    let paired = counts.len() / 2 * 2;
    if counts.len() == paired {
        return paired;
    }
    let count = counts[paired];
    if SUM_LIMIT < count {
        return paired;
    }
    if !grow(sums, figures, count) {
        return paired;
    }
    counts.len()
}

// Two ticks at once. On some processors a turn of `grow` has to wait for what the tick before it has stored one place further on, which at
// a small horizon takes longer than the turns themselves: so a tick waits half as often.
fn grow_twice(sums: &mut [u32], figures: Figures, one: u32, two: u32) -> bool
    requires placed { Placed sums.old figures.ceilings.now figures.leasts.now }
    requires in_bounds { (1 ≤ length figures.ceilings.now) × LaterKept sums.old }
    requires one_le_sum_limit { (one ≤ sum_limit) × (two ≤ sum_limit) }
    ensures { GrownTwice sums.old figures.entry.ceilings.now figures.entry.leasts.now one two sums.new result }
{
    let Figures { ceilings, leasts } = figures;
    let both = one + two;
    let last = ceilings.len() - 1;
    let mut within = true;
    for i in 0..last {
        let middle = sums[i + 1] + one;
        let sum = sums[i + 2] + both;
        sums[i] = sum;
        within = within
            & (inside(leasts[i], middle, ceilings[i]) & inside(leasts[i], sum, ceilings[i]));
    }
    let middle = sums[last + 1] + one;
    let sum = sums[last + 1] + two;
    sums[last] = sum;
    within
        & (inside(leasts[last], middle, ceilings[last]) & inside(leasts[last], sum, ceilings[last]))
}

// Each sum becomes the next one plus the count; tells whether every one is within its figures. This is where the time goes: one forward
// loop with no way out before its end, so that the compiler takes several sums at once.
fn grow(sums: &mut [u32], figures: Figures, count: u32) -> bool
    requires placed { Placed sums.old figures.ceilings.now figures.leasts.now }
    requires later_kept { LaterKept sums.old × (count ≤ sum_limit) }
    ensures { Grown sums.old figures.entry.ceilings.now figures.entry.leasts.now count sums.new result }
{
    let Figures { ceilings, leasts } = figures;
    let mut within = true;
    for i in 0..ceilings.len() {
        let sum = sums[i + 1] + count;
        sums[i] = sum;
        within = within & inside(leasts[i], sum, ceilings[i]);
    }
    within
}

// Whether a sum is within its figures. They are all small enough for signed numbers, of which one instruction compares four with four; for
// unsigned ones there is none.
fn inside(least: u32, sum: u32, ceiling: u32) -> bool
    requires { (least ≤ sum_limit) × (sum ≤ sum_limit + sum_limit + sum_limit) × (ceiling ≤ sum_limit) }
    ensures { Tells result ((least ≤ sum) × (sum ≤ ceiling)) }
{
    (least as i32 <= sum as i32) & (sum as i32 <= ceiling as i32)
}
