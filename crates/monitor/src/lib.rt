// The monitor (document 01's line monitor): judges each tick of a stream by the windows that end there.

#![tactic(auto)]

mod start;
mod windows;

ghost use Rattle.std.specs.Prelude.{◌≡◌, ◌≤◌, length, take};
ghost use Rattle.bounds.specs.Answers.{curves_in};
ghost use Rattle.monitor.specs.declared.MonitorRefusal.TheVariants.{Pair};
ghost use Rattle.monitor.specs.Answers.{monitor_refusal_number};
ghost use Rattle.monitor.specs.Promises.{MonitorOpened, MonitorTicked};

use bounds::{Curves, PairRefusal};
use history::{BadState, History, View};

// The longest horizon.
const MAX_HORIZON: usize = 256;

// Anyone may build one. Entries of the closed figures past the horizon have no effect.
#[derive(Clone, Copy)]
pub struct Monitor {
    // The pair as given, and the held ticks.
    pub history: History,
    // The closed figures, after an opening those of the closure; entry 0 for the window of one tick. Where the pair has no ceilings they
    // have no effect.
    pub closed_upper: [u32; MAX_HORIZON],
    pub closed_lower: [u32; MAX_HORIZON],
    pub failed: bool,
}

// Why it is not opened, by document 01's questions.
#[derive(Clone, Copy, PartialEq, Eq)]
pub enum MonitorRefusal {
    // 1, 2 or 4.
    Pair(PairRefusal),
    // 5: the pair has no closure; no unbounded stream conforms. Without ceilings one always does.
    NoClosure,
}

impl From<PairRefusal> for MonitorRefusal {
    ghost from_gives = { λ refusal opening. opening ≡ Pair refusal };

    fn from(refusal: PairRefusal) -> MonitorRefusal {
        MonitorRefusal::Pair(refusal)
    }
}

impl From<MonitorRefusal> for u32 {
    ghost from_gives = { λ refusal number. number ≡ monitor_refusal_number refusal };

    fn from(refusal: MonitorRefusal) -> u32 {
        match refusal {
            MonitorRefusal::Pair(refusal) => u32::from(refusal),
            MonitorRefusal::NoClosure => 5,
        }
    }
}

// What an opening hands out: whether the monitor is ready, and its state, which is promised where it is not, too (`MonitorOpened`).
#[derive(Clone, Copy)]
pub struct OpenedMonitor {
    pub opening: Result<(), MonitorRefusal>,
    pub state: Monitor,
}

// What a tick is found to be.
#[derive(Clone, Copy, PartialEq, Eq)]
pub enum Verdict {
    Passed,
    // The shortest window that ends at the tick and is outside its figures as given: it has too many, or too few.
    TooMany { window: usize },
    TooFew { window: usize },
    // Every window that ends at the tick keeps its figures as given, and some is outside its closed ones. After an opening that means that
    // the stream conforms and is not extendable.
    Lost,
    // A tick before this one was rejected.
    AlreadyFailed,
}

// What a tick gives back: the verdict or the refusal, and what is promised of either (`MonitorTicked`).
#[derive(Clone, Copy)]
pub struct Judgement {
    // Refused with 12 where the state has no legal horizon, a figure, given or closed, above 16,776,960, or as many held ticks as its
    // horizon or more. Without ceilings only its leasts as given are asked about.
    pub verdict: Result<Verdict, BadState>,
    // How near the tick came to the figures as given: the smallest margin of the windows that end there, negative where one is outside,
    // and the shortest window that has it, which need not be the verdict's. Of `AlreadyFailed` and a refusal both are 0.
    pub margin: i64,
    pub window: usize,
    pub next: Monitor,
}

impl Monitor {
    // A monitor of a pair; where the opening is refused, all of it is 0.
    pub fn open(curves: Curves) -> OpenedMonitor
        ensures { MonitorOpened (curves_in curves.entry) result }
    {
        let mut closed_upper = [0; MAX_HORIZON];
        let mut closed_lower = [0; MAX_HORIZON];
        let opening = start::ask(curves, &mut closed_upper, &mut closed_lower);
        let history = match opening {
            Ok(()) => History::open(curves).history,
            Err(_) => History::zero(),
        };
        let state = Monitor {
            history,
            closed_upper,
            closed_lower,
            failed: false,
        };
        OpenedMonitor { opening, state }
    }

    // Judges the next tick. It is added to the history where it passes; one that is rejected sets the failed mark. The arrays are taken out
    // of the state once, and what looks at them works on them where they are, as copies cost most of a tick. So the view is put together
    // here: a history that is asked for it is copied whole.
    pub fn tick(self, count: u32) -> Judgement
        ensures { MonitorTicked self count result }
    {
        let history = self.history;
        let horizon = history.horizon;
        let upper = history.upper;
        let lower = history.lower;
        let mut ticks = history.ticks;
        let closed_upper = self.closed_upper;
        let closed_lower = self.closed_lower;
        let finding = if MAX_HORIZON < horizon || horizon <= history.held {
            windows::unjudged(Err(BadState))
        } else {
            let curves = cut(&upper, &lower, history.unlimited, horizon);
            let closed = cut(&closed_upper, &closed_lower, false, horizon);
            let ticks = &ticks[..history.held];
            windows::examine(View { curves, ticks }, closed, self.failed, count)
        };
        let (held, failed) = match finding.verdict {
            Ok(Verdict::Passed) => (
                lists::push(&mut ticks[..horizon - 1], history.held, count),
                false,
            ),
            Ok(_) => (history.held, true),
            Err(BadState) => (history.held, self.failed),
        };
        let mut next = self;
        next.history.held = held;
        next.history.ticks = ticks;
        next.failed = failed;
        Judgement {
            verdict: finding.verdict,
            margin: finding.margin.value,
            window: finding.margin.window,
            next,
        }
    }
}

// The figures of a horizon, which are the first entries of two arrays.
fn cut<'a>(upper: &'a [u32], lower: &'a [u32], unlimited: bool, horizon: usize) -> Curves<'a>
    requires { (horizon ≤ length upper.now) × (horizon ≤ length lower.now) }
    ensures upper { result.upper.now ≡ take horizon upper.now }
    ensures lower { result.lower.now ≡ take horizon lower.now }
    ensures mark { result.unlimited ≡ unlimited }
{
    Curves {
        upper: &upper[..horizon],
        lower: &lower[..horizon],
        unlimited,
    }
}
