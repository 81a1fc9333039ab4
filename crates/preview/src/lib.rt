// Trying a list of counts on a monitor before it is sent (request P11): the counts go to a copy of its words, by the run that judges them
// in earnest.

#![tactic(auto)]

ghost use Rattle.std.specs.Prelude.{◌≡◌, ◌≤◌, min, length, IfOk, MatchResult};
ghost use Rattle.scripts.specs.Words.{LegalMonitorWords};
ghost use Rattle.scripts.specs.Answers.{counted};
ghost use Rattle.preview.specs.Preview.{previewed, preview_of};
ghost use Rattle.preview.specs.Steps.{RanAs, FirstNonzero};

use history::BadState;

// How many words a monitor has.
const MONITOR_WORDS: usize = 1_284;

// How many counts are run at a time, as there must be a place for each verdict. A burst made by hand has fewer; a longer list takes less
// than a tenth more of time than one run of it all would (DECISIONS 126), and the places take 4 KiB of the stack.
const PIECE: usize = 1_024;

// The verdict on a tick that passes, as an entry of C's list.
const PASSED: u32 = 0;

// How many of the counts would pass on the monitor of `state`, from the first on: the place of the first that would be rejected, or the
// number of all. `verdict` gets what the monitor would say there, or that all pass. Words that are no monitor are refused with 12, whatever
// the list, and then the verdict stays as it is.
pub fn preview(state: &[u32], counts: &[u32], verdict: &mut u32) -> Result<usize, BadState>
    ensures legal { MatchResult result (λ _. LegalMonitorWords state.now) (λ _. ¬ LegalMonitorWords state.now) }
    ensures told { previewed (counted result) verdict.new
        ≡ preview_of state.now counts.now verdict.old }
    ensures few { IfOk result (λ n. n ≤ length counts.now) }
{
    let mut words: [u32; MONITOR_WORDS] = *state.as_array().ok_or(BadState)?;
    try_counts(&mut words, counts, verdict)
}

// The same on words that may be changed. Each piece asks question 12; an empty list has none, and it is asked alone. Only the first can be
// refused, since what it leaves is a state.
fn try_counts(words: &mut [u32], counts: &[u32], verdict: &mut u32) -> Result<usize, BadState>
    ensures legal { MatchResult result (λ _. LegalMonitorWords words.old) (λ _. ¬ LegalMonitorWords words.old) }
    ensures told { previewed (counted result) verdict.new
        ≡ preview_of words.old counts.now verdict.old }
    ensures few { IfOk result (λ n. n ≤ length counts.now) }
{
    let mut verdicts = [PASSED; PIECE];
    if counts.is_empty() {
        run_piece(words, counts, &mut verdicts)?;
    }
    let mut passed = 0;
    for piece in counts.chunks(PIECE) {
        let n = run_piece(words, piece, &mut verdicts)?;
        if let Some(k) = first_rejected(&verdicts[..n]) {
            *verdict = verdicts[k];
            return Ok(passed + k);
        }
        passed += n;
    }
    *verdict = PASSED;
    Ok(passed)
}

// Runs as many of the counts as there are places for verdicts. No margin is sought where no place is lent for one.
fn run_piece(words: &mut [u32], counts: &[u32], verdicts: &mut [u32]) -> Result<usize, BadState>
    ensures left { RanAs words.old counts.now verdicts.old words.new
        verdicts.new (counted result) }
    ensures ran { IfOk result (λ n. n ≡ min (length counts.now) (length verdicts.old)) }
{
    scripts::judge(words, counts, verdicts, &mut [])
}

// The place of the first verdict that is no pass.
fn first_rejected(verdicts: &[u32]) -> Option<usize>
    ensures { FirstNonzero verdicts.now result }
{
    verdicts.iter().position(|verdict| *verdict != PASSED)
}
