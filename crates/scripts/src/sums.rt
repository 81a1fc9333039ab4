// Sums of the newest ticks, kept from tick to tick, those of longer windows first: in a list of h + 1 entries the sum of the newest d ticks
// stands at place h - d, so that all move down one place when a tick is added, in one forward loop.

ghost use Rattle.std.specs.Prelude.{◌≡◌, true, ◌-◌, ◌<◌, length, get_or};
ghost use Rattle.scripts.specs.Steps.{KeptSums};

// No larger sum is kept: 2^29, so that one of these and two counts of as much are below 2^31, and can be compared as signed numbers.
pub(crate) const SUM_LIMIT: u32 = 536_870_912;

// Figures in the order of the sums: a ceiling and a least for each sum but that of no ticks.
#[derive(Clone, Copy)]
pub(crate) struct Figures<'a> {
    pub(crate) ceilings: &'a [u32],
    pub(crate) leasts: &'a [u32],
}

// As many entries as the longest horizon has sums, with that of no ticks.
pub(crate) const MOST_SUMS: usize = 257;

// Adds up the newest d ticks for each d; tells whether no sum is above the limit. Where one is, what is left is no matter.
pub(crate) fn add_up(ticks: &[u32], sums: &mut [u32]) -> bool
    requires ticks_in_bounds { length ticks.now < length sums.old }
    requires sums_value { get_or sums.old (length sums.old - 1) 0 ≡ 0 }
    ensures sums_len_unchanged { length sums.new ≡ length sums.old }
    ensures kept_sums { result ≡ true → KeptSums ticks.now (length ticks.now) sums.new }
{
    let first = sums.len() - 1 - ticks.len();
    let mut sum = 0;
    for i in (0..ticks.len()).rev() {
        if SUM_LIMIT - sum < ticks[i] {
            return false;
        }
        sum += ticks[i];
        sums[first + i] = sum;
    }
    true
}
