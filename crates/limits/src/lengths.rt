// Lists of 0, 1, 256 and 257 figures, at the largest figure and above it; without ceilings, at the largest least that closing takes too.
ghost use Rattle.std.specs.Prelude.{◌≤◌};

use crate::numbers;
use std::io;

const LIMIT: u32 = 16_776_960;

const LEAST_LIMIT: u32 = 65_535;

// How many words a state has.
const MONITOR_WORDS: usize = 1_284;

const GENERATOR_WORDS: usize = 771;

// One entry more than the longest list.
const ROOM: usize = 257;

pub(crate) fn try_all(rt: &impl Print) -> io::Result<()> {
    for n in [0, 1, 256, 257] {
        try_length(rt, n)?;
    }
    Ok(())
}

// Any number but 0 sets the mark, and then whatever stands in the place of ceilings has no effect.
fn try_length(rt: &impl Print, n: usize) -> io::Result<()>
    requires { n ≤ 257 }
{
    for (upper_figure, lower_figure, mark) in [
        (LIMIT, 0, 0),
        (LIMIT, LIMIT, 0),
        (LIMIT + 1, 0, 0),
        (LIMIT, LIMIT + 1, 0),
        (u32::MAX, 0, 1),
        (0, LEAST_LIMIT, 2),
        (u32::MAX, LEAST_LIMIT + 1, 65_536),
        (LIMIT + 1, LIMIT, u32::MAX),
        (LIMIT, LIMIT + 1, 1),
    ] {
        try_lists(rt, n, upper_figure, lower_figure, mark)?;
    }
    Ok(())
}

// All ceilings are one figure, and all leasts another.
fn try_lists(
    rt: &impl Print,
    n: usize,
    upper_figure: u32,
    lower_figure: u32,
    mark: u32,
) -> io::Result<()>
    requires { n ≤ 257 }
{
    let upper = [upper_figure; ROOM];
    let lower = [lower_figure; ROOM];
    print!(rt; "lists")?;
    numbers::show(rt, n as u64)?;
    numbers::show_two(rt, u64::from(upper_figure), u64::from(lower_figure))?;
    numbers::show(rt, u64::from(mark))?;
    try_pair(rt, &upper[..n], &lower[..n], mark)?;
    print!(rt; "\n")
}

// Closing the pair into lists that are longer, two ticks of a monitor, and two of a generator.
fn try_pair(rt: &impl Print, upper: &[u32], lower: &[u32], mark: u32) -> io::Result<()> {
    numbers::show_closing(rt, upper, lower, mark, [7; ROOM])?;
    try_monitor(rt, upper, lower, mark)?;
    try_generator(rt, upper, lower, mark)
}

// The verdicts, or where the opening is refused the counts.
fn try_monitor(rt: &impl Print, upper: &[u32], lower: &[u32], mark: u32) -> io::Result<()> {
    let counts = [LIMIT, LIMIT + 1];
    let mut verdicts = counts;
    let mut state = [7; MONITOR_WORDS];
    let number = exports::calgedze_monitor_open(upper, lower, mark, &mut state);
    numbers::show(rt, u64::from(number))?;
    if number == 0 {
        exports::calgedze_monitor_run(&mut state, &counts, &mut verdicts, &mut []);
    }
    numbers::show(rt, numbers::digest(&verdicts))
}

// Likewise the counts that are sent, or the choices.
fn try_generator(rt: &impl Print, upper: &[u32], lower: &[u32], mark: u32) -> io::Result<()> {
    let choices = [LIMIT, LIMIT + 1];
    let mut counts = choices;
    let mut state = [7; GENERATOR_WORDS];
    let number = exports::calgedze_generator_open(upper, lower, mark, &mut state);
    numbers::show(rt, u64::from(number))?;
    if number == 0 {
        exports::calgedze_generator_run(&mut state, &choices, &mut counts);
    }
    numbers::show(rt, numbers::digest(&counts))
}
