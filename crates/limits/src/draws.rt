// Counts, figures and sizes of states, drawn.
ghost use Rattle.std.specs.Prelude.{◌≤◌};

use crate::numbers;
use std::array;

const MAX_HORIZON: usize = 256;

const FIGURE_LIMIT: u32 = 16_776_960;

// One of `times` states has figures at the limit and above it among the others, the rest hardly any. Of figures without an effect three in
// four are such.
pub(crate) fn draw_odd(case: u64, k: u64, times: u64, in_effect: bool) -> u64
    requires { 1 ≤ times }
    ensures { 1 ≤ result }
{
    if !in_effect {
        4
    } else if numbers::draw(case, k, times) == 0 {
        24
    } else {
        1_000_000
    }
}

// A size below `end`; now and then one that no legal state has, or only one with 256 windows.
pub(crate) fn draw_size(case: u64, k: u64, end: u64) -> usize
    requires { 1 ≤ end }
{
    match numbers::draw(case, k, 24) {
        0 => MAX_HORIZON,
        1 => MAX_HORIZON + 1,
        2 => usize::MAX,
        _ => numbers::draw(case, k ^ 1, end) as usize,
    }
}

// 256 entries of a state, from the k-th number of the case on.
pub(crate) fn draw_counts(case: u64, k: u64, odd: u64, end: u64) -> [u32; MAX_HORIZON]
    requires { (1 ≤ odd) × (1 ≤ end) × (end ≤ 256) }
{
    array::from_fn(|i| draw_count(case, k ^ (i as u64), odd, end))
}

// A count below `end`, or one time in `odd` the largest figure, the number after it, or the largest count.
pub(crate) fn draw_count(case: u64, k: u64, odd: u64, end: u64) -> u32
    requires { (1 ≤ odd) × (1 ≤ end) × (end ≤ 256) }
{
    match numbers::draw(case, k, odd) {
        0 => FIGURE_LIMIT,
        1 => FIGURE_LIMIT + 1,
        2 => u32::MAX,
        _ => numbers::draw(case, k ^ 8_192, end) as u32,
    }
}
