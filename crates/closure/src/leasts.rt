// Leasts without ceilings: their rounds, and what two parts of a window add up to.

ghost use Rattle.std.specs.Prelude.{◌≡◌, ◌*◌, ◌≤◌, ◌<◌, length};
ghost use Rattle.laws.specs.Ranges.{table};
ghost use Rattle.laws.specs.Tests.{Tells};
ghost use Rattle.bounds.specs.Bounds.{max_horizon};
ghost use Rattle.closure.specs.Closing.{least_limit};
ghost use Rattle.closure.specs.Steps.{LeastsFit, LeastsEnded, ReachesParts};

use crate::{LEAST_LIMIT, MAX_HORIZON, run};

// Runs the rounds of leasts, as those of a pair with 65,535 times its window for each ceiling, and counts those that change a figure. No
// round lowers such a ceiling, and no least less such a ceiling is above another least, so that sums of leasts alone have an effect; nor
// does a least come above one, so that the rounds always arrive. The closed leasts go to `closed_lower`.
pub(crate) fn to_end(lower: &[u32], closed_lower: &mut [u32]) -> u32
    requires { LeastsFit lower.now closed_lower.old }
    ensures { LeastsEnded lower.now result closed_lower.new }
{
    let h = lower.len();
    let upper = stand_ins();
    let mut closed_upper = [0; MAX_HORIZON];
    run::to_end(&upper[..h], lower, &mut closed_upper[..h], closed_lower).unwrap()
}

// The ceilings that no round of leasts of at most 65,535 makes anything of.
fn stand_ins() -> [u32; MAX_HORIZON]
    ensures { result ≡ table (λ d. d * least_limit) max_horizon }
{
    let mut upper = [0; MAX_HORIZON];
    for (i, ceiling) in upper.iter_mut().enumerate() {
        *ceiling = (i as u32 + 1) * LEAST_LIMIT;
    }
    upper
}

// Whether no two parts of the window of i + 1 ticks have more together than it has.
pub(crate) fn reaches_parts(lower: &[u32], i: usize) -> bool
    requires { i < length lower.now }
    ensures { Tells result (ReachesParts lower.now i) }
{
    let whole = lower[i] as u64;
    let mut holds = true;
    for a in 0..i {
        holds &= lower[a] as u64 + lower[i - 1 - a] as u64 <= whole;
    }
    holds
}
