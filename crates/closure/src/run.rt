// The rounds of a pair of arrival curves, run to their end. The curves are lent as two lists: a struct of two that may be changed would be
// taken apart at each call and put together again for the next.

ghost use Rattle.std.specs.Prelude.{◌≡◌, ◌≤◌, length};
ghost use Rattle.laws.specs.Tests.{Tells};
ghost use Rattle.curves.specs.Pairs.{pair_of};
ghost use Rattle.curves.specs.Rounds.{cut_off, Crossed};
ghost use Rattle.bounds.specs.Bounds.{max_horizon, Bounded};
ghost use Rattle.closure.specs.Steps.{SameLengths, Ready, Fit, Advanced, Stopped, Ended};

use crate::{MAX_HORIZON, round};

// Runs the rounds of the pair of `upper` and `lower`, and counts those that change a figure. The closure, if they arrive at one, goes to
// `closed_upper` and `closed_lower`. These may not be touched before the rounds have ended, so that the rounds are run in four arrays.
pub(crate) fn to_end(
    upper: &[u32],
    lower: &[u32],
    closed_upper: &mut [u32],
    closed_lower: &mut [u32],
) -> Option<u32>
    requires { Fit (pair_of upper.now lower.now) (pair_of closed_upper.old closed_lower.old) }
    ensures { Ended (pair_of upper.now lower.now) result
        (pair_of closed_upper.old closed_lower.old)
        (pair_of closed_upper.new closed_lower.new) }
{
    let h = upper.len();
    let mut held_upper = [0; MAX_HORIZON];
    let mut held_lower = [0; MAX_HORIZON];
    let mut new_upper = [0; MAX_HORIZON];
    let mut new_lower = [0; MAX_HORIZON];
    held_upper[..h].copy_from_slice(upper);
    held_lower[..h].copy_from_slice(lower);
    let rounds = until_stop(
        &mut held_upper[..h],
        &mut held_lower[..h],
        &mut new_upper[..h],
        &mut new_lower[..h],
    )?;
    lists::copy(&held_upper[..h], closed_upper);
    lists::copy(&held_lower[..h], closed_lower);
    Some(rounds)
}

// The rounds of the pair that is held, until one changes nothing, which counts those before it, or some least is above its ceiling: that is
// after at most 9 that change a figure (`RunsWithinLogarithm`). The other two slices are to work in.
fn until_stop(
    upper: &mut [u32],
    lower: &mut [u32],
    new_upper: &mut [u32],
    new_lower: &mut [u32],
) -> Option<u32>
    requires upper_len_bound { (length upper.old ≤ max_horizon) × Bounded upper.old }
    requires same_lengths { SameLengths (pair_of upper.old lower.old) (pair_of new_upper.old new_lower.old) }
    ensures { Stopped (pair_of upper.old lower.old) result (pair_of upper.new lower.new) }
{
    let mut rounds: u32 = 0;
    // Stays a `loop`: a range up to 9 would need a way out behind it that is never taken.
    loop {
        if crossed(upper, lower) {
            return None;
        }
        if next_round(upper, lower, new_upper, new_lower) {
            return Some(rounds);
        }
        rounds += 1;
    }
}

// Whether some least is above its ceiling.
fn crossed(upper: &[u32], lower: &[u32]) -> bool
    requires { length lower.now ≡ length upper.now }
    ensures { Tells result (Crossed cut_off (pair_of upper.now lower.now)) }
{
    upper
        .iter()
        .zip(lower)
        .any(|(ceiling, least)| *ceiling < *least)
}

// One round of the pair that is held, and whether it changed nothing.
fn next_round(
    upper: &mut [u32],
    lower: &mut [u32],
    new_upper: &mut [u32],
    new_lower: &mut [u32],
) -> bool
    requires { Ready (pair_of upper.old lower.old) (pair_of new_upper.old new_lower.old) }
    ensures { Advanced (pair_of upper.old lower.old) result (pair_of upper.new lower.new) }
{
    round::compute(upper, lower, new_upper, new_lower);
    let uppers_same = lists::copy(new_upper, upper);
    let lowers_same = lists::copy(new_lower, lower);
    uppers_same & lowers_same
}
