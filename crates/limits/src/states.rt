// States built by hand: any horizon, any number of held ticks, any figures and counts, and rubbish in the entries that have no effect;
// without ceilings these are the ceilings and the closed figures too.
use crate::{draws, numbers};
use generator::{Admissible, Generator, SendingRefusal};
use history::{BadState, History};
use monitor::{Judgement, Monitor, Verdict};
use std::io;

const CASES: u64 = 600;

// The states after this one have no ceilings.
const LIMITED_CASES: u64 = 400;

const MAX_HORIZON: usize = 256;

pub(crate) fn try_all(rt: &impl Print) -> io::Result<()> {
    try_stuck(rt)?;
    try_full(rt, false)?;
    try_full(rt, true)?;
    for case in 1..=CASES {
        try_state(rt, case)?;
    }
    Ok(())
}

// A generator on document 01's published pair as it is read, which no opening hands out, after 0, 2, 1, 0, 2, 0: no count can follow.
fn try_stuck(rt: &impl Print) -> io::Result<()> {
    let mut upper = [0; MAX_HORIZON];
    upper[..5].copy_from_slice(&[3, 6, 3, 12, 9]);
    let mut lower = [0; MAX_HORIZON];
    lower[4] = 5;
    let mut ticks = [0; MAX_HORIZON];
    ticks[..4].copy_from_slice(&[1, 0, 2, 0]);
    let history = History {
        horizon: 5,
        upper,
        lower,
        unlimited: false,
        held: 4,
        ticks,
    };
    print!(rt; "stuck")?;
    try_generator(rt, Generator { history }, 0)?;
    print!(rt; "\n")
}

// A monitor that holds as many ticks as it can, of the largest count each, over ceilings of 0: no window has a larger sum, and no margin is
// smaller. Without ceilings one more of them passes.
fn try_full(rt: &impl Print, unlimited: bool) -> io::Result<()> {
    let zeros = [0; MAX_HORIZON];
    let history = History {
        horizon: MAX_HORIZON,
        upper: zeros,
        lower: zeros,
        unlimited,
        held: MAX_HORIZON - 1,
        ticks: [u32::MAX; MAX_HORIZON],
    };
    let monitor = Monitor {
        history,
        closed_upper: zeros,
        closed_lower: zeros,
        failed: false,
    };
    print!(rt; "full")?;
    try_monitor(rt, monitor, u32::MAX)?;
    print!(rt; "\n")
}

fn try_state(rt: &impl Print, case: u64) -> io::Result<()> {
    let history = build(case);
    let monitor = build_monitor(case, history);
    let count = draws::draw_count(case, 2, 12, 4);
    print!(rt; "state")?;
    numbers::show(rt, case)?;
    try_monitor(rt, monitor, count)?;
    try_generator(rt, Generator { history }, count)?;
    print!(rt; "\n")
}

// The closed figures have nothing to do with those as given: they are tighter in some windows and looser in others.
fn build_monitor(case: u64, history: History) -> Monitor {
    let odd = draws::draw_odd(case, 12, 8, !history.unlimited);
    Monitor {
        history,
        closed_upper: draws::draw_counts(case, 4_096, odd, 1 + numbers::draw(case, 13, 90)),
        closed_lower: draws::draw_counts(case, 5_120, odd, 1 + numbers::draw(case, 14, 9)),
        failed: numbers::draw(case, 1, 4) == 0,
    }
}

fn build(case: u64) -> History {
    let unlimited = LIMITED_CASES < case;
    let upper_odd = draws::draw_odd(case, 3, 4, !unlimited);
    let lower_odd = draws::draw_odd(case, 3, 4, true);
    History {
        horizon: draws::draw_size(case, 4, 11),
        upper: draws::draw_counts(case, 1_024, upper_odd, 1 + numbers::draw(case, 9, 90)),
        lower: draws::draw_counts(case, 2_048, lower_odd, 1 + numbers::draw(case, 10, 9)),
        unlimited,
        held: draws::draw_size(case, 6, 1 + numbers::draw(case, 8, 10)),
        ticks: draws::draw_counts(case, 3_072, 24, 1 + numbers::draw(case, 11, 6)),
    }
}

// A tick of the monitor: what it answers, and the state that comes back.
fn try_monitor(rt: &impl Print, monitor: Monitor, count: u32) -> io::Result<()> {
    let judgement = monitor.tick(count);
    let next = judgement.next;
    let added = judgement.verdict == Ok(Verdict::Passed);
    show_answer(rt, &judgement)?;
    numbers::show(rt, u64::from(next.failed))?;
    show_history(rt, &next.history, added)?;
    show_entries(rt, &next.closed_upper, ceilings(&next.history), added)?;
    show_entries(rt, &next.closed_lower, ceilings(&next.history), added)
}

// A tick's answer: the verdict, the margin, and the window that has it.
pub(crate) fn show_answer(rt: &impl Print, judgement: &Judgement) -> io::Result<()> {
    show_verdict(rt, judgement.verdict)?;
    numbers::show(rt, judgement.margin)?;
    numbers::show(rt, judgement.window as u64)
}

// The kind of a verdict, and the window that it names; or the refusal's number.
fn show_verdict(rt: &impl Print, verdict: Result<Verdict, BadState>) -> io::Result<()> {
    match verdict {
        Ok(Verdict::Passed) => numbers::show_two(rt, 0, 0),
        Ok(Verdict::TooMany { window }) => numbers::show_two(rt, 1, window as u64),
        Ok(Verdict::TooFew { window }) => numbers::show_two(rt, 2, window as u64),
        Ok(Verdict::AlreadyFailed) => numbers::show_two(rt, 3, 0),
        Ok(Verdict::Lost) => numbers::show_two(rt, 4, 0),
        Err(refusal) => show_refusal(rt, u32::from(refusal)),
    }
}

fn show_refusal(rt: &impl Print, number: u32) -> io::Result<()> {
    numbers::show_two(rt, u64::from(number), 0)
}

// The range, a tick of the generator, and the state that comes back.
fn try_generator(rt: &impl Print, generator: Generator, choice: u32) -> io::Result<()> {
    show_range(rt, generator.range())?;
    let sent = generator.tick(choice);
    show_sending(rt, sent.sending)?;
    show_history(rt, &sent.next.history, sent.sending.is_ok())
}

fn show_range(rt: &impl Print, range: Result<Admissible, SendingRefusal>) -> io::Result<()> {
    match range {
        Ok(range) => numbers::show_two(rt, u64::from(range.lo), u64::from(range.hi)),
        Err(refusal) => show_refusal(rt, u32::from(refusal)),
    }
}

fn show_sending(rt: &impl Print, sending: Result<u32, SendingRefusal>) -> io::Result<()> {
    match sending {
        Ok(count) => numbers::show_two(rt, 0, u64::from(count)),
        Err(refusal) => show_refusal(rt, u32::from(refusal)),
    }
}

// The view of a state after a tick that was added; else every entry, since the very state comes back.
fn show_history(rt: &impl Print, history: &History, added: bool) -> io::Result<()> {
    numbers::show_two(rt, history.horizon as u64, history.held as u64)?;
    numbers::show(rt, u64::from(history.unlimited))?;
    show_entries(rt, &history.upper, ceilings(history), added)?;
    show_entries(rt, &history.lower, history.horizon, added)?;
    show_entries(rt, &history.ticks, history.held, added)
}

// How many ceilings a view has, or closed figures of either kind: none where the pair has no ceilings.
fn ceilings(history: &History) -> usize {
    if history.unlimited {
        0
    } else {
        history.horizon
    }
}

// The first n entries, or all.
fn show_entries(
    rt: &impl Print,
    entries: &[u32; MAX_HORIZON],
    n: usize,
    view: bool,
) -> io::Result<()> {
    let shown = if view {
        n.min(MAX_HORIZON)
    } else {
        MAX_HORIZON
    };
    numbers::show(rt, numbers::digest(&entries[..shown]))
}
