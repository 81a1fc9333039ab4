// The generator (document 01's maker): sends, tick after tick, a count that keeps every window that ends there.

#![tactic(auto)]

ghost use Rattle.std.specs.Prelude.{◌≡◌, min, max, ◌+◌, ◌-◌, ◌≤◌};
ghost use Rattle.laws.specs.Tests.{Tells};
ghost use Rattle.curves.specs.Unlimited.{curves_of};
ghost use Rattle.curves.specs.Rounds.{Causal};
ghost use Rattle.curves.specs.Questions.{AllYes};
ghost use Rattle.bounds.specs.Bounds.{figure_limit, pair_questions};
ghost use Rattle.bounds.specs.Answers.{curves_in};
ghost use Rattle.history.specs.States.{view_of, history_of};
ghost use Rattle.history.specs.Answers.{view_in};
ghost use Rattle.history.specs.Steps.{Slices};
ghost use Rattle.generator.specs.declared.SendingRefusal.TheVariants as SendingRefusal;
ghost use Rattle.generator.specs.declared.GeneratorRefusal.TheVariants.{Pair};
ghost use Rattle.generator.specs.Generating.{ranging, sending};
ghost use Rattle.generator.specs.Opening.{generator_opening};
ghost use Rattle.generator.specs.Answers.{generator_refusal_number, sending_refusal_number, generator_opening_reply};
ghost use Rattle.generator.specs.Answers.{range_reply, sending_reply};
ghost use Rattle.generator.specs.Promises.{GeneratorOpened, GeneratorTicked, GeneratorRanged};
ghost use Rattle.generator.specs.Steps.{Limited, lowered_to, sum_limit, Shows};

use bounds::{Curves, PairRefusal};
use history::{BadState, History, View};

// The longest horizon.
const MAX_HORIZON: usize = 256;

// The largest figure: no count above it is sent.
const COUNT_LIMIT: u64 = 16_776_960;

// 2^40: no sum of held ticks is above it, as there are at most 256, of 32 bits each.
const SUM_LIMIT: u64 = 1_099_511_627_776;

// Anyone may build one.
#[derive(Clone, Copy)]
pub struct Generator {
    pub history: History,
}

// Why it is not opened, by document 01's questions and request P3's 15.
#[derive(Clone, Copy, PartialEq, Eq)]
pub enum GeneratorRefusal {
    // 1, 2 or 4.
    Pair(PairRefusal),
    // 15: the pair is not its own closure, or has none; without ceilings, some least is below the sum of those of two parts of its window.
    // On what closing gives this is never the answer.
    NotClosed,
}

impl From<PairRefusal> for GeneratorRefusal {
    ghost from_gives = { λ refusal opening. opening ≡ Pair refusal };

    fn from(refusal: PairRefusal) -> GeneratorRefusal {
        GeneratorRefusal::Pair(refusal)
    }
}

impl From<GeneratorRefusal> for u32 {
    ghost from_gives = { λ refusal number. number ≡ generator_refusal_number refusal };

    fn from(refusal: GeneratorRefusal) -> u32 {
        match refusal {
            GeneratorRefusal::Pair(refusal) => u32::from(refusal),
            GeneratorRefusal::NotClosed => 15,
        }
    }
}

// What an opening hands out: whether the generator is ready, and its state, which is promised where it is not, too (`GeneratorOpened`).
#[derive(Clone, Copy)]
pub struct OpenedGenerator {
    pub opening: Result<(), GeneratorRefusal>,
    pub state: Generator,
}

// The range (document 01's look at lo and hi): the smallest and the largest count that can be sent.
#[derive(Clone, Copy, PartialEq, Eq)]
pub struct Admissible {
    pub lo: u32,
    pub hi: u32,
}

// Why nothing can be sent.
#[derive(Clone, Copy, PartialEq, Eq)]
pub enum SendingRefusal {
    // 12: the state has no legal horizon, a figure above 16,776,960 (without ceilings, a least), or as many held ticks as its horizon or
    // more.
    BadState,
    // 13: no count keeps every window that ends at the next tick. No opening, whatever ticks follow it, leads to such a state.
    NoCount,
}

impl From<BadState> for SendingRefusal {
    ghost from_gives = { λ _ refusal. refusal ≡ SendingRefusal.BadState };

    fn from(_: BadState) -> SendingRefusal {
        SendingRefusal::BadState
    }
}

impl From<SendingRefusal> for u32 {
    ghost from_gives = { λ refusal number. number ≡ sending_refusal_number refusal };

    fn from(refusal: SendingRefusal) -> u32 {
        match refusal {
            SendingRefusal::BadState => u32::from(BadState),
            SendingRefusal::NoCount => 13,
        }
    }
}

// What a tick gives back: the count that is sent, or why none is; and the next state, which is promised of either (`GeneratorTicked`).
#[derive(Clone, Copy)]
pub struct Sent {
    pub sending: Result<u32, SendingRefusal>,
    pub next: Generator,
}

impl Generator {
    // A generator on a pair, which must be its own closure; where the opening is refused, all of the state is 0.
    pub fn open(curves: Curves) -> OpenedGenerator
        ensures { GeneratorOpened (curves_in curves.entry) result }
    {
        let opening = ask_opening(curves);
        let history = match opening {
            Ok(()) => History::open(curves).history,
            Err(_) => History::zero(),
        };
        OpenedGenerator {
            opening,
            state: Generator { history },
        }
    }

    // Sends the count that the choice leads to. Each array is taken out of the state once and put into the next one once: what lies between
    // works on them where they are, as copies cost most of a tick.
    pub fn tick(self, choice: u32) -> Sent
        ensures { GeneratorTicked self choice result }
    {
        let history = self.history;
        let horizon = history.horizon;
        let upper = history.upper;
        let lower = history.lower;
        let mut ticks = history.ticks;
        let sending = choose(
            horizon,
            &upper,
            &lower,
            history.unlimited,
            history.held,
            &ticks,
            choice,
        );
        let held = match sending {
            Ok(count) => lists::push(&mut ticks[..horizon - 1], history.held, count),
            Err(_) => history.held,
        };
        let history = History {
            horizon,
            upper,
            lower,
            unlimited: history.unlimited,
            held,
            ticks,
        };
        let next = Generator { history };
        Sent { sending, next }
    }

    // Shows the admissible range: the smallest and the largest count that the next tick can send.
    pub fn range(self) -> Result<Admissible, SendingRefusal>
        ensures { GeneratorRanged self result }
    {
        limit(self.history.view()?).ok_or(SendingRefusal::NoCount)
    }
}

// Questions 1, 2, 4 and 15.
fn ask_opening(curves: Curves) -> Result<(), GeneratorRefusal>
    ensures { generator_opening_reply result ≡ generator_opening (curves_in curves.entry) }
{
    curves.ask()?;
    if is_closed(curves) {
        Ok(())
    } else {
        Err(GeneratorRefusal::NotClosed)
    }
}

// Whether a pair that passes 1, 2 and 4 is its own closure: closing takes no round. What closing gives is not needed. Without ceilings no
// least is below the sum of those of two parts of its window.
fn is_closed(curves: Curves) -> bool
    requires { AllYes (pair_questions (curves_in curves)) }
    ensures { Tells result (Causal (curves_of (curves_in curves.entry))) }
{
    if curves.unlimited {
        return closure::superadditive(curves.lower);
    }
    let mut closed_upper = [0; MAX_HORIZON];
    let mut closed_lower = [0; MAX_HORIZON];
    match closure::close(curves, &mut closed_upper, &mut closed_lower) {
        Ok(closed) => closed.rounds == 0,
        Err(_) => false,
    }
}

// The count that the choice leads to. The parts of a history are loose: one that is lent whole is copied by a caller that goes on with it.
fn choose(
    horizon: usize,
    upper: &[u32; MAX_HORIZON],
    lower: &[u32; MAX_HORIZON],
    unlimited: bool,
    held: usize,
    ticks: &[u32; MAX_HORIZON],
    choice: u32,
) -> Result<u32, SendingRefusal>
    ensures { sending_reply result
        ≡ sending (view_of (history_of horizon upper.now lower.now unlimited held ticks.now)) choice }
{
    let Admissible { lo, hi } = find_range(horizon, upper, lower, unlimited, held, ticks)?;
    Ok(lo + choice % (hi - lo + 1))
}

// Question 12, and then 13: by the figures up to the horizon, and the held ticks. It is not joined with its caller, so that a tick is, with
// whoever goes on with the next state: that state is not copied once more then.
#[inline(never)]
fn find_range(
    horizon: usize,
    upper: &[u32; MAX_HORIZON],
    lower: &[u32; MAX_HORIZON],
    unlimited: bool,
    held: usize,
    ticks: &[u32; MAX_HORIZON],
) -> Result<Admissible, SendingRefusal>
    ensures { range_reply result
        ≡ ranging (view_of (history_of horizon upper.now lower.now unlimited held ticks.now)) }
{
    history::ask_legality(horizon, upper, lower, unlimited, held)?;
    let curves = Curves {
        upper: &upper[..horizon],
        lower: &lower[..horizon],
        unlimited,
    };
    let ticks = &ticks[..held];
    limit(View { curves, ticks }).ok_or(SendingRefusal::NoCount)
}

// The counts of the next tick, if there are any. Two windows a turn: compared with each other first, they make a turn wait for one
// comparison of the turn before. `rest` is what the sum of the ticks of the turns leaves of the limit of sums; with it added a figure
// stands for what that sum leaves of it. It is joined with either caller, so that no reference to a state's arrays leaves that: they would
// be copied.
#[inline(always)]
fn limit(view: View) -> Option<Admissible>
    requires { Slices view.curves.upper.now view.curves.lower.now view.ticks.now }
    ensures { Limited (view_in view.entry) result }
{
    let View {
        curves: Curves {
            upper,
            lower,
            unlimited,
        },
        ticks,
    } = view;
    let held = ticks.len();
    let mut rest = SUM_LIMIT;
    let mut lo = lower[0] as u64 + rest;
    let mut hi = lowered(COUNT_LIMIT + rest, upper[0], unlimited, rest);
    for turn in 0..held / 2 {
        let left = held - 2 * turn;
        let count = ticks[left - 2];
        rest -= ticks[left - 1] as u64 + count as u64;
        let d = 2 * turn + 1;
        lo = raised_twice(lo, lower[d], lower[d + 1], count, rest);
        hi = lowered_twice(hi, upper[d], upper[d + 1], count, rest, unlimited);
    }
    if held % 2 == 0 {
        return cut_off(lo, hi);
    }
    rest -= ticks[0] as u64;
    lo = lo.max(lower[held] as u64 + rest);
    cut_off(lo, lowered(hi, upper[held], unlimited, rest))
}

// The limits without that of sums. Only here they are cut off at 0: a ceiling that the ticks before have passed leaves room for no count,
// and a least that they have asks for none.
fn cut_off(lo: u64, hi: u64) -> Option<Admissible>
    requires { hi ≤ figure_limit + sum_limit }
    ensures { Shows (lo - sum_limit) (hi - (sum_limit - 1)) result }
{
    let lo = lo.saturating_sub(SUM_LIMIT);
    let end = hi.saturating_sub(SUM_LIMIT - 1);
    if end <= lo {
        return None;
    }
    Some(Admissible {
        lo: lo as u32,
        hi: (end - 1) as u32,
    })
}

// The largest of the counts that a window with this ceiling leaves; without ceilings it stays.
fn lowered(hi: u64, ceiling: u32, unlimited: bool, rest: u64) -> u64
    requires { rest ≤ sum_limit }
    ensures { result ≡ lowered_to unlimited hi ceiling rest }
{
    if unlimited {
        return hi;
    }
    hi.min(ceiling as u64 + rest)
}

// That which two windows leave: `rest` is the longer one's, and `count` the tick that the other does not have.
fn lowered_twice(hi: u64, one: u32, other: u32, count: u32, rest: u64, unlimited: bool) -> u64
    requires { rest ≤ sum_limit }
    ensures { result ≡ lowered_to unlimited (lowered_to unlimited hi one (rest + count)) other rest }
{
    if unlimited {
        return hi;
    }
    hi.min(rest + (one as u64 + count as u64).min(other as u64))
}

// The smallest of the counts, by the leasts of two such windows.
fn raised_twice(lo: u64, one: u32, other: u32, count: u32, rest: u64) -> u64
    requires { rest ≤ sum_limit }
    ensures { result ≡ max (max lo (one + (rest + count))) (other + rest) }
{
    lo.max(rest + (one as u64 + count as u64).max(other as u64))
}
