// Streams on monitors as an opening hands them out, a refused one too: what each tick is answered, with its margin, while the held ticks
// fill up and once the oldest are let go.
ghost use Rattle.std.specs.Prelude.{◌≤◌};

use crate::{numbers, states};
use bounds::Curves;
use monitor::Monitor;
use std::{array, io};

const CASES: u64 = 160;

// The runs after this one have no ceilings.
const LIMITED_CASES: u64 = 120;

const TICKS: usize = 12;

pub(crate) fn try_all(rt: &impl Print) -> io::Result<()> {
    try_example(rt)?;
    for case in 1..=CASES {
        try_drawn(rt, case)?;
    }
    Ok(())
}

// The README's example: the margins are 5, 4, 3, 1, 0 and -6, with too many, and then none, as the monitor has failed.
fn try_example(rt: &impl Print) -> io::Result<()> {
    let curves = Curves {
        upper: &[10, 16, 20],
        lower: &[0, 2, 4],
        unlimited: false,
    };
    try_run(rt, 0, curves, &[5, 6, 6, 7, 7, 12, 1])
}

// Some streams pass whole, others are rejected early or late, and some pairs are refused. Without ceilings none is refused, and what stands
// in their place would reject more.
fn try_drawn(rt: &impl Print, case: u64) -> io::Result<()> {
    let horizon = 1 + numbers::draw(case, 20, 8) as usize;
    let upper = draw_list(case, 6_144, 4, 2, 9);
    let lower = draw_list(case, 7_168, 0, 1, 5);
    let counts = draw_list(case, 14_336, 1, 0, 5);
    let curves = Curves {
        upper: &upper[..horizon],
        lower: &lower[..horizon],
        unlimited: LIMITED_CASES < case,
    };
    try_run(rt, case, curves, &counts)
}

// Figures or counts: entry i is one of `choices` numbers from `first + i * step` on. An odd `choices` is best: a draw's last bits, and so
// its remainder by a power of 2, hardly depend on its place.
fn draw_list(case: u64, k: u64, first: u32, step: u32, choices: u64) -> [u32; TICKS]
    requires { (first ≤ 16) × (step ≤ 16) × (1 ≤ choices) × (choices ≤ 16) }
{
    array::from_fn(|i| {
        let drawn = numbers::draw(case, k ^ (i as u64), choices) as u32;
        first + i as u32 * step + drawn
    })
}

// The number of the case, the horizon, the mark, what opening answers, and each tick's answer. A refused opening hands out a state too: its
// ticks are refused with 12.
fn try_run(rt: &impl Print, case: u64, curves: Curves, counts: &[u32]) -> io::Result<()> {
    let opened = Monitor::open(curves);
    print!(rt; "run")?;
    numbers::show_two(rt, case, curves.upper.len() as u64)?;
    numbers::show(rt, u64::from(curves.unlimited))?;
    numbers::show(rt, u64::from(opened.opening.err().map_or(0, u32::from)))?;
    try_ticks(rt, opened.state, counts)?;
    print!(rt; "\n")
}

// Each tick by the state that the one before it left.
fn try_ticks(rt: &impl Print, opened: Monitor, counts: &[u32]) -> io::Result<()> {
    let mut monitor = opened;
    for count in counts {
        let judgement = monitor.tick(*count);
        states::show_answer(rt, &judgement)?;
        monitor = judgement.next;
    }
    Ok(())
}
