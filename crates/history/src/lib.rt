// What a monitor's and a generator's state have in common: the pair, and the last ticks of the stream (document 01's held ticks).

#![tactic(auto)]

ghost use Rattle.std.specs.Prelude.{◌≡◌, ◌≤◌, length, take, IfOk};
ghost use Rattle.curves.specs.Questions.{AllYes};
ghost use Rattle.bounds.specs.Answers.{curves_in};
ghost use Rattle.bounds.specs.Bounds.{max_horizon, pair_questions};
ghost use Rattle.history.specs.States.{view_of, legality, viewing};
ghost use Rattle.history.specs.Opening.{fresh, zero_history};
ghost use Rattle.history.specs.Answers.{legality_reply, view_reply};
ghost use Rattle.history.specs.Promises.{HistoryOpened, LegalityAsked};
ghost use Rattle.history.specs.Steps.{padded_to};

use bounds::{Curves, PairRefusal};

// The longest horizon, and the largest figure.
const MAX_HORIZON: usize = 256;

const FIGURE_LIMIT: u32 = 16_776_960;

// Anyone may build one, so its parts are plain numbers and arrays with their lengths beside them: no memory is asked for, and the states'
// words in C lie so. Entries of the figures past the horizon, and of the ticks past the held ones, have no effect.
#[derive(Clone, Copy)]
pub struct History {
    pub horizon: usize,
    // The figures of both curves; entry 0 for the window of one tick.
    pub upper: [u32; MAX_HORIZON],
    pub lower: [u32; MAX_HORIZON],
    // The pair has no ceilings: those in `upper` have no effect.
    pub unlimited: bool,
    // How many ticks are held: fewer than the horizon.
    pub held: usize,
    // The held ticks in the order of the stream: entry 0 is the oldest.
    pub ticks: [u32; MAX_HORIZON],
}

// What counts of a history: the figures up to its horizon, and the held ticks.
#[derive(Clone, Copy)]
pub struct View<'a> {
    pub curves: Curves<'a>,
    pub ticks: &'a [u32],
}

// What an opening hands out: whether it is ready, and the history, which is promised where it is not, too (`HistoryOpened`). A monitor's and
// a generator's opening ask more.
#[derive(Clone, Copy)]
pub struct OpenedHistory {
    pub opening: Result<(), PairRefusal>,
    pub history: History,
}

// 12, which every operation on a state asks first: the horizon is not 1 to 256, a figure is above 16,776,960 (ceilings count where there
// are any), or as many ticks are held as the horizon has or more.
#[derive(Clone, Copy, PartialEq, Eq)]
pub struct BadState;

impl From<BadState> for u32 {
    ghost from_gives = { λ _ number. number ≡ 12 };

    fn from(_: BadState) -> u32 {
        12
    }
}

impl History {
    // The history of a stream that has not begun; where the opening is refused, all of it is 0.
    pub fn open(curves: Curves) -> OpenedHistory
        ensures { HistoryOpened (curves_in curves.entry) result }
    {
        let opening = curves.ask();
        let history = match opening {
            Ok(()) => unbegun(curves),
            Err(_) => History::zero(),
        };
        OpenedHistory { opening, history }
    }

    // The history that a refused opening hands out: every number and every entry is 0. It fails question 12.
    pub fn zero() -> History
        ensures { result ≡ zero_history }
    {
        History {
            horizon: 0,
            upper: [0; MAX_HORIZON],
            lower: [0; MAX_HORIZON],
            unlimited: false,
            held: 0,
            ticks: [0; MAX_HORIZON],
        }
    }

    // Question 12.
    pub fn legality(&self) -> Result<(), BadState>
        ensures { legality_reply result ≡ legality (view_of self.now) }
    {
        ask_legality(
            self.horizon,
            &self.upper,
            &self.lower,
            self.unlimited,
            self.held,
        )
    }

    // Question 12, and what counts of the history. The ceilings up to the horizon are there without ceilings too, where they have no effect.
    pub fn view(&self) -> Result<View<'_>, BadState>
        ensures seen { view_reply result ≡ viewing (view_of self.now) }
        ensures ceilings { IfOk result (λ w. w.curves.upper.now ≡ take self.now.horizon self.now.upper) }
    {
        self.legality()?;
        let horizon = self.horizon;
        Ok(View {
            curves: Curves {
                upper: &self.upper[..horizon],
                lower: &self.lower[..horizon],
                unlimited: self.unlimited,
            },
            ticks: &self.ticks[..self.held],
        })
    }
}

// Question 12, asked of the numbers and arrays of a history, for those who have these loose. The ticks have no part in it.
pub fn ask_legality(
    horizon: usize,
    upper: &[u32; MAX_HORIZON],
    lower: &[u32; MAX_HORIZON],
    unlimited: bool,
    held: usize,
) -> Result<(), BadState>
    ensures { LegalityAsked horizon upper.now lower.now unlimited held result }
{
    if MAX_HORIZON < horizon || horizon <= held {
        return Err(BadState);
    }
    let curves = Curves {
        upper: &upper[..horizon],
        lower: &lower[..horizon],
        unlimited,
    };
    if !curves.within(FIGURE_LIMIT) {
        return Err(BadState);
    }
    Ok(())
}

// The history of a stream that has not begun.
fn unbegun(curves: Curves) -> History
    requires { AllYes (pair_questions (curves_in curves)) }
    ensures { view_of result ≡ fresh (curves_in curves.entry) }
{
    History {
        horizon: curves.upper.len(),
        upper: padded(curves.upper),
        lower: padded(curves.lower),
        unlimited: curves.unlimited,
        held: 0,
        ticks: [0; MAX_HORIZON],
    }
}

// An array that begins with these figures.
fn padded(figures: &[u32]) -> [u32; MAX_HORIZON]
    requires { length figures.now ≤ max_horizon }
    ensures { result ≡ padded_to figures.now }
{
    let mut out = [0; MAX_HORIZON];
    out[..figures.len()].copy_from_slice(figures);
    out
}
