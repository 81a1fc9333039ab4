// The limits of a pair, as every operation on a pair asks about them.

#![tactic(auto)]

ghost use Rattle.std.specs.Prelude.{◌≡◌, max};
ghost use Rattle.std.specs.List.{fold};
ghost use Rattle.laws.specs.Tests.{Tells};
ghost use Rattle.curves.specs.Pairs.{FiguresWithin};
ghost use Rattle.curves.specs.Unlimited.{AllWithin};
ghost use Rattle.bounds.specs.Bounds.{Bounded, asking};
ghost use Rattle.bounds.specs.Answers.{pair_refusal_number, curves_in, asked_reply};

// The longest horizon, and the largest figure.
const MAX_HORIZON: usize = 256;

const FIGURE_LIMIT: u32 = 16_776_960;

// A pair of arrival curves as it is lent: ceilings and leasts, entry 0 for the window of one tick.
#[derive(Clone, Copy)]
pub struct Curves<'a> {
    pub upper: &'a [u32],
    pub lower: &'a [u32],
    // The pair has no ceilings: `upper` gives the horizon alone. A mark beside the lists, as C and the states' words have it (`with_mark`).
    pub unlimited: bool,
}

// Why a pair is refused, by the first of questions 1, 2 and 4 that is answered no.
#[derive(Clone, Copy, PartialEq, Eq)]
pub enum PairRefusal {
    // 1: the upper list is not 1 to 256 long.
    UpperLength,
    // 2: the lower list has another length.
    LowerLength,
    // 4: a figure is above 16,776,960; without ceilings, a least is. Closing's limit is 65,535 there.
    FigureLimit,
}

impl From<PairRefusal> for u32 {
    ghost from_gives = { λ refusal number. number ≡ pair_refusal_number refusal };

    fn from(refusal: PairRefusal) -> u32 {
        match refusal {
            PairRefusal::UpperLength => 1,
            PairRefusal::LowerLength => 2,
            PairRefusal::FigureLimit => 4,
        }
    }
}

impl Curves<'_> {
    // Asks questions 1, 2 and 4.
    pub fn ask(self) -> Result<(), PairRefusal>
        ensures { asked_reply result ≡ asking (curves_in self.entry) }
    {
        let horizon = self.upper.len();
        if horizon < 1 || MAX_HORIZON < horizon {
            return Err(PairRefusal::UpperLength);
        }
        if self.lower.len() != horizon {
            return Err(PairRefusal::LowerLength);
        }
        if !self.within(FIGURE_LIMIT) {
            return Err(PairRefusal::FigureLimit);
        }
        Ok(())
    }

    // Whether no figure is above a limit, as questions 4 and 12 ask; without ceilings, no least.
    pub fn within(self, limit: u32) -> bool
        ensures { Tells result (AllWithin limit (curves_in self.entry)) }
    {
        if self.unlimited {
            return within(self.lower, limit);
        }
        within(self.upper, limit) & within(self.lower, limit)
    }
}

// Whether no figure of a list is above 16,776,960.
pub fn within_limit(figures: &[u32]) -> bool
    ensures { Tells result (Bounded figures.now) }
{
    within(figures, FIGURE_LIMIT)
}

// Whether no figure of a list is above a limit. Where the bits of all of them joined are not, none is, and joining takes the processor an
// instruction for four figures. Otherwise the highest of them is found, in about the same time.
fn within(figures: &[u32], limit: u32) -> bool
    ensures { Tells result (FiguresWithin limit figures.now) }
{
    joined(figures) <= limit || highest(figures) <= limit
}

// The bits that some figure has, as a number. All that is asked of it is that no figure is above it.
fn joined(figures: &[u32]) -> u32
    ensures { FiguresWithin result figures.now }
{
    figures.iter().fold(0, |bits, figure| bits | figure)
}

// The highest figure of a list; 0 where it has none.
fn highest(figures: &[u32]) -> u32
    ensures { result ≡ fold max 0 figures.now }
{
    figures.iter().fold(0, |most, figure| most.max(*figure))
}
