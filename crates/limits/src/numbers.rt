// Numbers: written out, drawn, and boiled down; and those of a closing.
ghost use Rattle.std.specs.Prelude.{◌≤◌, ◌<◌};

use std::fmt::Display;
use std::io;

// A number after a blank, with a sign right before the digits where it is negative.
pub(crate) fn show(rt: &impl Print, n: impl Display + Drop) -> io::Result<()> {
    print!(rt; " {n}")
}

pub(crate) fn show_two(rt: &impl Print, m: u64, n: u64) -> io::Result<()> {
    show(rt, m)?;
    show(rt, n)
}

// One step of a xorshift generator.
fn scramble(x: u64) -> u64 {
    let a = x ^ (x << 13);
    let b = a ^ (a >> 7);
    b ^ (b << 17)
}

// The k-th number of a case, from 0 to before `end`.
pub(crate) fn draw(case: u64, k: u64, end: u64) -> u64
    requires { 1 ≤ end }
    ensures { result < end }
{
    scramble(scramble(scramble(case ^ (k << 20) ^ 88172645463325252))) % end
}

// Every number and its place have an effect.
pub(crate) fn digest(numbers: &[u32]) -> u64 {
    let mut sum = 1;
    for number in numbers {
        sum = (sum * 31 + u64::from(*number)) % 2147483648;
    }
    sum
}

// What closing a pair answers, and what it leaves of two lists that are lent for the closure, each with these entries.
pub(crate) fn show_closing<const N: usize>(
    rt: &impl Print,
    upper: &[u32],
    lower: &[u32],
    mark: u32,
    lent: [u32; N],
) -> io::Result<()> {
    let mut closed_upper = lent;
    let mut closed_lower = lent;
    let answer = exports::calgedze_close(upper, lower, mark, &mut closed_upper, &mut closed_lower);
    show(rt, answer)?;
    show_two(rt, digest(&closed_upper), digest(&closed_lower))
}
