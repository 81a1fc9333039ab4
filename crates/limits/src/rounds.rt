// Pairs of many rounds: nine to a closure, which are the most that there can be, and eight to a least above its ceiling, which no answer
// tells; eight without ceilings, the most that there can be there; and a text with a most and a record without one.
use crate::numbers;
use std::io;

const LIMIT: u32 = 16_776_960;

const MAX_HORIZON: usize = 256;

// The bit of an answer that says that a pair has no ceilings.
const UNLIMITED: u64 = 65_536;

pub(crate) fn try_all(rt: &impl Print) -> io::Result<()> {
    try_text(rt, b"window,least,most\r\n2,0,2\r\n255,255,65535\r\n")?;
    try_text(rt, b"window,least,most\r\n2,0,2\r\n255,256,65535\r\n")?;
    try_two_windows(rt)?;
    try_text(rt, b"window,least,most\r\n1,65535,\r\n256,0,\r\n")?;
    try_text(rt, b"window,least,most\r\n1,0,65535\r\n256,5,\r\n")
}

// The pair of a text, with its mark: where that is set, the ceilings are the largest numbers still.
fn try_text(rt: &impl Print, text: &[u8]) -> io::Result<()> {
    let mut upper = [u32::MAX; MAX_HORIZON];
    let mut lower = [0; MAX_HORIZON];
    let answer = exports::calgedze_read(text, &mut upper, &mut lower);
    let mark = mark_of(answer);
    let horizon = (answer % UNLIMITED) as usize;
    if horizon <= MAX_HORIZON {
        try_closing(rt, &upper[..horizon], &lower[..horizon], mark)?;
    }
    Ok(())
}

// The mark in an answer; none is in a refusal's.
fn mark_of(answer: u64) -> u32 {
    (answer / UNLIMITED % 2) as u32
}

// A ceiling of 40,000 messages a tick in 5 ticks, and a least of as many in 253.
fn try_two_windows(rt: &impl Print) -> io::Result<()> {
    let mut upper = [LIMIT; MAX_HORIZON];
    let mut lower = [0; MAX_HORIZON];
    upper[4] = 200_000;
    lower[252] = 10_120_000;
    try_closing(rt, &upper, &lower, 0)
}

// What closing the pair answers, and what it leaves of lists of 256 entries.
fn try_closing(rt: &impl Print, upper: &[u32], lower: &[u32], mark: u32) -> io::Result<()> {
    print!(rt; "rounds")?;
    numbers::show(rt, upper.len() as u64)?;
    numbers::show_closing(rt, upper, lower, mark, [7; MAX_HORIZON])?;
    print!(rt; "\n")
}
