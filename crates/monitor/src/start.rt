// Opening a monitor: its questions, and the closure.

ghost use Rattle.std.specs.Prelude.{◌≡◌};
ghost use Rattle.curves.specs.Pairs.{pair_of};
ghost use Rattle.bounds.specs.Answers.{curves_in};
ghost use Rattle.closure.specs.Theorems.{room};
ghost use Rattle.monitor.specs.Steps.{OpeningAsked};

use crate::MonitorRefusal;
use bounds::Curves;
use closure::ClosingRefusal;

// The questions of an opening. A pair without ceilings is not closed; the closure of any other goes to the first entries of `closed_upper`
// and `closed_lower`. On a refusal nothing is put there.
pub(crate) fn ask(
    curves: Curves,
    closed_upper: &mut [u32],
    closed_lower: &mut [u32],
) -> Result<(), MonitorRefusal>
    requires { pair_of closed_upper.old closed_lower.old ≡ room }
    ensures { OpeningAsked (curves_in curves.entry) (pair_of closed_upper.new closed_lower.new) result }
{
    if curves.unlimited {
        curves.ask()?;
        return Ok(());
    }
    match closure::close(curves, closed_upper, closed_lower) {
        Ok(_) => Ok(()),
        Err(ClosingRefusal::Pair(refusal)) => Err(MonitorRefusal::Pair(refusal)),
        Err(ClosingRefusal::NoClosure) => Err(MonitorRefusal::NoClosure),
        // 3 cannot come, as there is room for every horizon.
        Err(ClosingRefusal::ResultLength) => unreachable!(),
    }
}
