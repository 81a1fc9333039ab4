// Lists of ticks on a monitor and on a generator that are lists of 32-bit words, as these can cross the boundary to C: opening one, running
// a list of counts or of choices, and looking at the admissible range.

#![tactic(auto)]

mod codes;
mod generating;
mod judging;
mod passing;
mod sending;
mod sums;
mod words;

ghost use Rattle.std.specs.Prelude.{◌≡◌, length, MatchResult, IfOk, min};
ghost use Rattle.bounds.specs.Answers.{curves_in};
ghost use Rattle.monitor.specs.Answers.{monitor_refusal_number};
ghost use Rattle.generator.specs.Answers.{generator_refusal_number, range_reply};
ghost use Rattle.scripts.specs.Words.{LegalMonitorWords, LegalGeneratorWords};
ghost use Rattle.scripts.specs.Scripts.{opened, monitor_opened, generator_opened, judged, judged_counts, sent, sent_choices, looking};
ghost use Rattle.scripts.specs.Answers.{opening_number, counted};
ghost use Rattle.scripts.specs.Runs.{JudgedRest, SentRest};

use bounds::Curves;
use generator::{Admissible, Generator, GeneratorRefusal, SendingRefusal};
use history::BadState;
use monitor::{Monitor, MonitorRefusal};

// Why a state is not opened: its opening is refused with R, or the list for it has not its length.
#[derive(Clone, Copy, PartialEq, Eq)]
pub enum OpenRefusal<R> {
    Refused(R),
    // 12.
    BadState,
}

// Opens a monitor on a pair, and writes it into `state`; where it is refused, nothing is written.
pub fn open_monitor(curves: Curves, state: &mut [u32]) -> Result<(), OpenRefusal<MonitorRefusal>>
    ensures { opened (opening_number monitor_refusal_number result) state.new
        ≡ monitor_opened (curves_in curves.entry) state.old }
{
    let opened = Monitor::open(curves);
    opened.opening.map_err(OpenRefusal::Refused)?;
    if state.len() != words::MONITOR_WORDS {
        return Err(OpenRefusal::BadState);
    }
    words::write_monitor(state, curves, opened.state);
    Ok(())
}

// Opens a generator, and writes it into `state`. The rest is as above.
pub fn open_generator(
    curves: Curves,
    state: &mut [u32],
) -> Result<(), OpenRefusal<GeneratorRefusal>>
    ensures { opened (opening_number generator_refusal_number result) state.new
        ≡ generator_opened (curves_in curves.entry) state.old }
{
    let opened = Generator::open(curves);
    opened.opening.map_err(OpenRefusal::Refused)?;
    if state.len() != words::GENERATOR_WORDS {
        return Err(OpenRefusal::BadState);
    }
    words::write_pair(state, curves);
    Ok(())
}

// Judges the counts on the monitor of `state`, as many as `verdicts` has places: each tick gets the state that the one before it left.
// Gives back how many. `margins` gets as many margins as it has places; where it has none, no margin is sought, which is faster by far.
pub fn judge(
    state: &mut [u32],
    counts: &[u32],
    verdicts: &mut [u32],
    margins: &mut [i64],
) -> Result<usize, BadState>
    ensures legal { MatchResult result (λ _. LegalMonitorWords state.old) (λ _. ¬ LegalMonitorWords state.old) }
    ensures ran { IfOk result (λ n. n ≡ min (length counts.now) (length verdicts.old)) }
    ensures left { judged (counted result) state.new verdicts.new margins.new
        ≡ judged_counts state.old counts.now verdicts.old margins.old }
{
    words::monitor_legality(state)?;
    let n = counts.len().min(verdicts.len());
    judge_legal(state, &counts[..n], &mut verdicts[..n], margins);
    Ok(n)
}

// The same where the state is legal and there is a place for each verdict.
fn judge_legal(state: &mut [u32], counts: &[u32], verdicts: &mut [u32], margins: &mut [i64])
    requires { LegalMonitorWords state.old × (length verdicts.old ≡ length counts.now) }
    ensures { JudgedRest state.old counts.now margins.old state.new
        verdicts.new margins.new }
{
    if !margins.is_empty() {
        judging::judge_rest(state, counts, verdicts, margins);
        return;
    }
    let sure = judging::judge_first(state, counts, verdicts);
    if sure < counts.len() {
        judging::judge_rest(state, &counts[sure..], &mut verdicts[sure..], margins);
    }
}

// Sends for the choices on the generator of `state`, as many as `counts` has places. Gives back how many.
pub fn generate(state: &mut [u32], choices: &[u32], counts: &mut [u32]) -> Result<usize, BadState>
    ensures legal { MatchResult result (λ _. LegalGeneratorWords state.old) (λ _. ¬ LegalGeneratorWords state.old) }
    ensures ran { IfOk result (λ n. n ≡ min (length choices.now) (length counts.old)) }
    ensures left { sent (counted result) state.new counts.new
        ≡ sent_choices state.old choices.now counts.old }
{
    words::generator_legality(state)?;
    let n = choices.len().min(counts.len());
    send_legal(state, &choices[..n], &mut counts[..n]);
    Ok(n)
}

// The same where the state is legal and there is a place for each count.
fn send_legal(state: &mut [u32], choices: &[u32], counts: &mut [u32])
    requires { LegalGeneratorWords state.old × (length counts.old ≡ length choices.now) }
    ensures { SentRest state.old choices.now state.new counts.new }
{
    let sure = generating::send_first(state, choices, counts);
    if sure < choices.len() {
        generating::send_rest(state, &choices[sure..], &mut counts[sure..]);
    }
}

// The smallest and the largest count that the generator of `state` can send next.
pub fn look(state: &[u32]) -> Result<Admissible, SendingRefusal>
    ensures { range_reply result ≡ looking state.now }
{
    words::generator_legality(state)?;
    let history = words::read_history(state);
    Generator { history }.range()
}
