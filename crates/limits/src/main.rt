// Tries the operations at and past their limits: lists of 0, 1, 256 and 257 figures, figures of 16,776,960 and 16,776,961, and without
// ceilings of 65,535 and 65,536, pairs of nine rounds and of eight, and states that anyone could build but no opening and no tick hands
// out, among them a generator with nothing to send; and streams on monitors as an opening hands them out, as no margin crosses the boundary
// to C. All of these with ceilings, and without. Each line is what was tried and what came back; the outside tests compute the same lines.

#![tactic(auto)]

mod draws;
mod lengths;
mod numbers;
mod rounds;
mod runs;
mod states;

use std::io;

fn main(rt: HostRuntime) -> io::Result<()> {
    lengths::try_all(&rt)?;
    rounds::try_all(&rt)?;
    states::try_all(&rt)?;
    runs::try_all(&rt)
}
