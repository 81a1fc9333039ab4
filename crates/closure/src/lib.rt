// Closing a pair of arrival curves: every bound that its figures imply, made explicit, or the answer that no stream conforms to it.

#![tactic(auto)]

mod convolution;
mod leasts;
mod round;
mod run;

ghost use Rattle.std.specs.Prelude.{◌≡◌};
ghost use Rattle.laws.specs.Tests.{Tells};
ghost use Rattle.curves.specs.Pairs.{pair_of};
ghost use Rattle.curves.specs.Unlimited.{SuperAdditive};
ghost use Rattle.bounds.specs.Answers.{curves_in};
ghost use Rattle.closure.specs.Closing.{closing};
ghost use Rattle.closure.specs.Answers.{closing_refusal_number, closing_answer};
ghost use Rattle.closure.specs.Steps.{limit_for};

use bounds::{Curves, PairRefusal};

// The longest horizon, and the largest figure.
const MAX_HORIZON: usize = 256;

const FIGURE_LIMIT: u32 = 16_776_960;

// The largest least that closing takes of a pair without ceilings.
const LEAST_LIMIT: u32 = 65_535;

// A closure that is given: it took so many rounds that changed a figure, and has the pair's mark.
#[derive(Clone, Copy, PartialEq, Eq)]
pub struct Closed {
    pub rounds: u32,
    pub unlimited: bool,
}

// Why there is none, by the first of questions 1 to 5 that is answered no.
#[derive(Clone, Copy, PartialEq, Eq)]
pub enum ClosingRefusal {
    // 1, 2 or 4; without ceilings, 4 asks that no least is above 65,535.
    Pair(PairRefusal),
    // 3: a result list is too short.
    ResultLength,
    // 5: the rounds end with some least above its ceiling; no unbounded stream conforms.
    NoClosure,
}

impl From<ClosingRefusal> for u32 {
    ghost from_gives = { λ refusal number. number ≡ closing_refusal_number refusal };

    fn from(refusal: ClosingRefusal) -> u32 {
        match refusal {
            ClosingRefusal::Pair(refusal) => u32::from(refusal),
            ClosingRefusal::ResultLength => 3,
            ClosingRefusal::NoClosure => 5,
        }
    }
}

// Closes a pair. The closure goes to the first entries of `closed_upper` and `closed_lower`; the others, and on a refusal all, stay as they
// are. Of a pair without ceilings, `closed_upper` stays as it is.
pub fn close(
    curves: Curves,
    closed_upper: &mut [u32],
    closed_lower: &mut [u32],
) -> Result<Closed, ClosingRefusal>
    ensures { closing_answer result (pair_of closed_upper.new closed_lower.new)
        ≡ closing (curves_in curves.entry) (pair_of closed_upper.old closed_lower.old) }
{
    let h = curves.upper.len();
    if h < 1 || MAX_HORIZON < h {
        return Err(ClosingRefusal::Pair(PairRefusal::UpperLength));
    }
    if curves.lower.len() != h {
        return Err(ClosingRefusal::Pair(PairRefusal::LowerLength));
    }
    if closed_upper.len() < h || closed_lower.len() < h {
        return Err(ClosingRefusal::ResultLength);
    }
    if !curves.within(limit_for(curves.unlimited)) {
        return Err(ClosingRefusal::Pair(PairRefusal::FigureLimit));
    }
    if curves.unlimited {
        let rounds = leasts::to_end(curves.lower, &mut closed_lower[..h]);
        return Ok(Closed {
            rounds,
            unlimited: true,
        });
    }
    let rounds = run::to_end(
        curves.upper,
        curves.lower,
        &mut closed_upper[..h],
        &mut closed_lower[..h],
    )
    .ok_or(ClosingRefusal::NoClosure)?;
    Ok(Closed {
        rounds,
        unlimited: false,
    })
}

// What question 4 asks of a figure.
fn limit_for(unlimited: bool) -> u32
    ensures { result ≡ limit_for unlimited }
{
    if unlimited { LEAST_LIMIT } else { FIGURE_LIMIT }
}

// Whether no least is below the sum of those of two parts of its window: whether leasts without ceilings are their own closure.
pub fn superadditive(lower: &[u32]) -> bool
    ensures { Tells result (SuperAdditive lower.now) }
{
    (0..lower.len()).all(|i| leasts::reaches_parts(lower, i))
}
