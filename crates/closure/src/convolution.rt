// The sums and differences of a round, for one curve in 32 bits: its min-plus convolution with itself, and its deconvolution with the other
// curve. The inner loop goes over windows, so that the compiler takes several of them at once.

ghost use Rattle.std.specs.Prelude.{◌≡◌, ◌+◌, ◌≤◌, length};
ghost use Rattle.closure.specs.Steps.{no_figure, NoneAbove, IsRow, SumsWithin, DifferencesWithin, Addable};
ghost use Rattle.closure.specs.Steps.{smallest_of_five, lowered_to_sums};
ghost use Rattle.closure.specs.Steps.{begun, convolved, deconvolved, tightened};

// What a ceiling is lifted by, and what a least is taken from: 2^25.
pub(crate) const LIFT: u32 = 33554432;

// Puts into `best` what a round makes of the curve in the row `own`, with the other curve in the row `other`: for each window the smallest
// of its own figure, of the sums and of the differences, ceilings 2^26 higher than they are and leasts taken from 2^26.
pub(crate) fn tighten(own: &[u32], other: &[u32], best: &mut [u32])
    requires own_row { IsRow (length best.old) own.now × SumsWithin (length best.old) own.now }
    requires other_row { IsRow (length best.old) other.now × DifferencesWithin (length best.old) own.now other.now }
    ensures { best.new ≡ tightened own.now other.now (length best.old) }
{
    take_own(own, best);
    convolve(own, best);
    deconvolve(own, other, best);
}

// The row's own figures, which are the best to begin with, lifted once more.
fn take_own(own: &[u32], best: &mut [u32])
    requires { IsRow (length best.old) own.now × SumsWithin (length best.old) own.now }
    ensures { best.new ≡ begun own.now (length best.old) }
{
    for i in 0..best.len() {
        best[i] = own[i + 4] + LIFT;
    }
}

// The sums: parts of a, a + 1, a + 2 and a + 3 ticks in one pass. A sum has its parts in either order, so it is looked at by the shorter:
// a pass goes over windows of at least twice as many ticks as its first part, and the last begins with half the horizon at most. It goes
// over one window more, and so over whole fours of windows where the horizon is a multiple of four.
fn convolve(own: &[u32], best: &mut [u32])
    requires { IsRow (length best.old) own.now × SumsWithin (length best.old) own.now × NoneAbove no_figure best.old }
    ensures { best.new ≡ convolved own.now best.old }
{
    for a in (1..=best.len() / 2).step_by(4) {
        let figures = [own[a + 6], own[a + 5], own[a + 4], own[a + 3]];
        lower_to_sums(&mut best[a + a - 2..], &own[a - 1..], figures);
    }
}

// The differences: what is left of windows longer by t, t + 1, t + 2 and t + 3 ticks, in one pass, over one window more than there are of
// the first, for the same reason.
fn deconvolve(own: &[u32], other: &[u32], best: &mut [u32])
    requires rows { IsRow (length best.old) own.now × IsRow (length best.old) other.now }
    requires differences { DifferencesWithin (length best.old) own.now other.now × NoneAbove no_figure best.old }
    ensures { best.new ≡ deconvolved own.now other.now best.old }
{
    let h = best.len();
    for t in (1..h).step_by(4) {
        let figures = [other[t + 3], other[t + 4], other[t + 5], other[t + 6]];
        lower_to_sums(&mut best[..h + 1 - t], &own[t + 4..], figures);
    }
}

// Lowers each entry of `best` to the smallest of itself and of the four entries of the row from its place on, each plus its number.
fn lower_to_sums(best: &mut [u32], row: &[u32], numbers: [u32; 4])
    requires { (length best.old + 3 ≤ length row.now) × Addable row.now numbers }
    ensures { best.new ≡ lowered_to_sums row.now numbers best.old }
{
    for i in 0..best.len() {
        best[i] = smallest_of_five(row, numbers, i, best[i]);
    }
}

// The smallest of x and of the row's four entries from i on, each plus its number.
fn smallest_of_five(row: &[u32], numbers: [u32; 4], i: usize, x: u32) -> u32
    requires { (i + 4 ≤ length row.now) × Addable row.now numbers }
    ensures { result ≡ smallest_of_five row.now numbers i x }
{
    x.min(row[i] + numbers[0])
        .min(row[i + 1] + numbers[1])
        .min(row[i + 2] + numbers[2])
        .min(row[i + 3] + numbers[3])
}
