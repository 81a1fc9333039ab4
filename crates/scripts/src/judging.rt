// A list of counts on a monitor's words.

ghost use Rattle.std.specs.Prelude.{◌≡◌, ◌-◌, ◌≤◌, pos, length, set};
ghost use Rattle.monitor.specs.Monitoring.{monitor_view_of, LegalMonitor};
ghost use Rattle.scripts.specs.Words.{LegalMonitorWords};
ghost use Rattle.scripts.specs.Runs.{JudgedFirst, JudgedRest, JudgedByValue, filled_from};

use crate::codes::{ALREADY_FAILED, PASSED, verdict_code};
use crate::{passing, words};
use monitor::Monitor;

// How many ticks there are from one look at the failed mark to the next.
const GLANCE: usize = 64;

// The counts that are sure to pass, from the first on, without a state by value and without margins. Gives back how many they are.
pub(crate) fn judge_first(state: &mut [u32], counts: &[u32], verdicts: &mut [u32]) -> usize
    requires { LegalMonitorWords state.old × (length verdicts.old ≡ length counts.now) }
    ensures { JudgedFirst state.old counts.now verdicts.old state.new
        verdicts.new result }
{
    if words::failed(state) {
        return 0;
    }
    let n = passing::count_passing(words::view(state), words::closed(state), counts);
    words::hold(state, &counts[..n]);
    verdicts[..n].fill(PASSED);
    n
}

// The others, tick after tick, on the state by value, each with its margin as far as there is room for margins.
pub(crate) fn judge_rest(
    state: &mut [u32],
    counts: &[u32],
    verdicts: &mut [u32],
    margins: &mut [i64],
)
    requires { LegalMonitorWords state.old × (length verdicts.old ≡ length counts.now) }
    ensures { JudgedRest state.old counts.now margins.old state.new
        verdicts.new margins.new }
{
    let opened = words::read_monitor(state);
    let left = judge_all(opened, counts, verdicts, margins);
    words::write_held(state, left.history);
    words::write_failed(state, left.failed);
}

// Each count by the state that the one before it left. A monitor that has failed judges nothing any more. Its mark is looked at only now and
// then: where it decides at every tick, the compiler copies the state once more.
fn judge_all(
    mut monitor: Monitor,
    counts: &[u32],
    verdicts: &mut [u32],
    margins: &mut [i64],
) -> Monitor
    requires { (length verdicts.old ≡ length counts.now) × LegalMonitor (monitor_view_of monitor) }
    ensures { JudgedByValue (monitor_view_of monitor) counts.now margins.old verdicts.new
        margins.new result }
{
    for (i, count) in counts.iter().enumerate() {
        if monitor.failed & (i % GLANCE == 0) {
            reject_from(i, verdicts, margins);
            return monitor;
        }
        let judgement = monitor.tick(*count);
        verdicts[i] = verdict_code(judgement.verdict);
        put_margin(margins, i, judgement.margin);
        monitor = judgement.next;
    }
    monitor
}

// The verdicts from a place on, and the margins, of a monitor that has failed.
fn reject_from(first: usize, verdicts: &mut [u32], margins: &mut [i64])
    requires { first ≤ length verdicts.old }
    ensures verdicts_after { verdicts.new
        ≡ filled_from 3_000 first (length verdicts.old - first) verdicts.old }
    ensures margins_after { margins.new
        ≡ filled_from (pos 0) first (length verdicts.old - first) margins.old }
{
    verdicts[first..].fill(ALREADY_FAILED);
    let end = margins.len().min(verdicts.len());
    if first < end {
        margins[first..end].fill(0);
    }
}

// Puts a margin into its place, if there is one.
fn put_margin(margins: &mut [i64], i: usize, margin: i64)
    ensures { margins.new ≡ set margins.old i margin }
{
    if i < margins.len() {
        margins[i] = margin;
    }
}
