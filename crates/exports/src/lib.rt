// The boundary to C and to Rust: the operations on numbers and lists alone. `include/calgedze.h` says what a caller has to know.

#![tactic(auto)]

ghost use Rattle.std.specs.Prelude.{◌≡◌, ◌≤◌, false};
ghost use Rattle.laws.specs.Writing.{over};
ghost use Rattle.curves.specs.Pairs.{pair_of};
ghost use Rattle.curves.specs.Unlimited.{with_mark};
ghost use Rattle.bounds.specs.Answers.{curves_in};
ghost use Rattle.closure.specs.Closing.{closing};
ghost use Rattle.constraints.specs.Reading.{reading};
ghost use Rattle.report.specs.Report as report;
ghost use Rattle.rendering.specs.Rendering.{rendering};
ghost use Rattle.scripts.specs.Codes.{minus};
ghost use Rattle.scripts.specs.Words.{mark_from};
ghost use Rattle.scripts.specs.Scripts.{opened, monitor_opened, generator_opened, judged, judged_counts, sent, sent_choices, looked};
ghost use Rattle.scripts.specs.Answers.{counted};
ghost use Rattle.preview.specs.Preview.{previewed, preview_of};
ghost use Rattle.exports.specs.Boundary.{in_one, returned, closing_returned, reading_returned, report_returned, report_into};
ghost use Rattle.exports.specs.Boundary.{rendered_into};
ghost use Rattle.exports.specs.Steps.{OpeningNumber};

use bounds::Curves;
use history::BadState;
use scripts::OpenRefusal;

// A refusal's number stands in the upper 32 bits of an answer, and so does the largest count of an admissible range.
const UPPER_HALF: u64 = 4_294_967_296;

// The mark of a pair without ceilings, in an answer.
const UNLIMITED: u64 = 65_536;

// `closure::close`. Here and below any number but 0 says that the pair has no ceilings.
pub fn calgedze_close(
    upper: &[u32],
    lower: &[u32],
    unlimited: u32,
    closed_upper: &mut [u32],
    closed_lower: &mut [u32],
) -> u64
    ensures { returned result (pair_of closed_upper.new closed_lower.new)
        ≡ closing_returned (closing (with_mark upper.now lower.now (mark_from unlimited))
        (pair_of closed_upper.old closed_lower.old)) }
{
    match closure::close(curves(upper, lower, unlimited), closed_upper, closed_lower) {
        Ok(closed) => given(closed.rounds, closed.unlimited),
        Err(refusal) => refused(u32::from(refusal)),
    }
}

// A pair of curves as its lists and its mark are lent.
fn curves<'a>(upper: &'a [u32], lower: &'a [u32], unlimited: u32) -> Curves<'a>
    ensures { curves_in result ≡ with_mark upper.now lower.now (mark_from unlimited) }
{
    Curves {
        upper,
        lower,
        unlimited: 0 < unlimited,
    }
}

// A value and a mark, as one number.
fn given(value: u32, unlimited: bool) -> u64
    ensures { result ≡ in_one 0 unlimited value }
{
    u64::from(value) + if unlimited { UNLIMITED } else { 0 }
}

// A refusal in the place of a value.
fn refused(number: u32) -> u64
    ensures { result ≡ in_one number false 0 }
{
    u64::from(number) * UPPER_HALF
}

// `constraints::read`.
pub fn calgedze_read(text: &[u8], upper: &mut [u32], lower: &mut [u32]) -> u64
    ensures { returned result (pair_of upper.new lower.new)
        ≡ reading_returned (reading text.now (pair_of upper.old lower.old)) }
{
    match constraints::read(text, upper, lower) {
        Ok(pair) => given(pair.horizon as u32, pair.unlimited),
        Err(refusal) => refused(u32::from(refusal)),
    }
}

// `report::report`, as much of it as there is room for, and how long all of it is.
pub fn calgedze_report(text: &[u8], output: &mut [u8]) -> usize
    ensures { report_returned result output.new ≡ report_into (report.output text.now) output.old }
{
    let report = report::report(text);
    copy_bytes(report.as_bytes(), output);
    report.length
}

// The beginning of `from`, as far as `to` has room for it.
fn copy_bytes(from: &[u8], to: &mut [u8])
    ensures { to.new ≡ over from.now to.old }
{
    let n = from.len().min(to.len());
    to[..n].copy_from_slice(&from[..n]);
}

// `rendering::render`, as much of the text as there is room for, and how long all of it is; or the refusal's number with a minus sign.
pub fn calgedze_render(upper: &[u32], lower: &[u32], unlimited: u32, output: &mut [u8]) -> u64
    ensures { report_returned result output.new
        ≡ rendered_into (rendering (with_mark upper.now lower.now (mark_from unlimited))) output.old }
{
    match rendering::render(curves(upper, lower, unlimited)) {
        Ok(text) => {
            copy_bytes(text.as_bytes(), output);
            text.length as u64
        }
        Err(refusal) => minus(u32::from(refusal)),
    }
}

// A refusal's number with a minus sign.
fn minus(number: u32) -> u64
    requires { 1 ≤ number }
    ensures { result ≡ minus number }
{
    u64::from(number).wrapping_neg()
}

// `scripts::open_monitor`.
pub fn calgedze_monitor_open(upper: &[u32], lower: &[u32], unlimited: u32, state: &mut [u32]) -> u32
    ensures { opened result state.new
        ≡ monitor_opened (with_mark upper.now lower.now (mark_from unlimited)) state.old }
{
    opening_number(scripts::open_monitor(curves(upper, lower, unlimited), state))
}

// 0 where a state is opened, else the refusal's number.
fn opening_number<R>(opening: Result<(), OpenRefusal<R>>) -> u32
where
    u32: From<R>,
    ensures { OpeningNumber ⟦<u32 as From<R>>⟧.from_gives opening result }
{
    match opening {
        Ok(()) => 0,
        Err(OpenRefusal::Refused(refusal)) => refusal.into(),
        Err(OpenRefusal::BadState) => BadState.into(),
    }
}

// `scripts::judge`.
pub fn calgedze_monitor_run(
    state: &mut [u32],
    counts: &[u32],
    verdicts: &mut [u32],
    margins: &mut [i64],
) -> u64
    ensures { judged result state.new verdicts.new margins.new
        ≡ judged_counts state.old counts.now verdicts.old margins.old }
{
    counted(scripts::judge(state, counts, verdicts, margins))
}

// How many ticks ran, or the refusal's number with a minus sign.
fn counted(ran: Result<usize, BadState>) -> u64
    ensures { result ≡ counted ran }
{
    match ran {
        Ok(n) => n as u64,
        Err(refusal) => minus(u32::from(refusal)),
    }
}

// `preview::preview`.
pub fn calgedze_monitor_preview(state: &[u32], counts: &[u32], verdict: &mut u32) -> u64
    ensures { previewed result verdict.new
        ≡ preview_of state.now counts.now verdict.old }
{
    counted(preview::preview(state, counts, verdict))
}

// `scripts::open_generator`.
pub fn calgedze_generator_open(
    upper: &[u32],
    lower: &[u32],
    unlimited: u32,
    state: &mut [u32],
) -> u32
    ensures { opened result state.new
        ≡ generator_opened (with_mark upper.now lower.now (mark_from unlimited)) state.old }
{
    opening_number(scripts::open_generator(curves(upper, lower, unlimited), state))
}

// `scripts::generate`.
pub fn calgedze_generator_run(state: &mut [u32], choices: &[u32], counts: &mut [u32]) -> u64
    ensures { sent result state.new counts.new
        ≡ sent_choices state.old choices.now counts.old }
{
    counted(scripts::generate(state, choices, counts))
}

// `scripts::look`: the largest count in the upper half of the answer and the smallest in the lower, or the refusal's number with a minus
// sign.
pub fn calgedze_generator_look(state: &[u32]) -> u64
    ensures { result ≡ looked state.now }
{
    match scripts::look(state) {
        Ok(range) => u64::from(range.hi) * UPPER_HALF + u64::from(range.lo),
        Err(refusal) => minus(u32::from(refusal)),
    }
}
