// States as lists of 32-bit words: question 12 of one, what stands in it, the state that it spells by value, and what ticks and an opening
// write into it.

ghost use Rattle.std.specs.Prelude.{◌≡◌, [], ◌∷◌, ◌++◌, ◌≤◌, length, set, MatchResult};
ghost use Rattle.bounds.specs.Answers.{curves_in};
ghost use Rattle.bounds.specs.Bounds.{max_horizon};
ghost use Rattle.history.specs.Answers.{view_in};
ghost use Rattle.history.specs.States.{view_of, entries, Legal};
ghost use Rattle.scripts.specs.Words.{history_from, monitor_from, generator_words, monitor_words, LegalGeneratorWords};
ghost use Rattle.scripts.specs.Words.{LegalMonitorWords, mark_from, part, with_held, word, failed_word, padded, opened_words};
ghost use Rattle.scripts.specs.Runs.{ClosedWords, held_after, PairFits, shown, closed_from};

use bounds::Curves;
use history::{BadState, History, View};
use monitor::Monitor;

// The longest horizon, and the largest figure.
const MAX_HORIZON: usize = 256;

const FIGURE_LIMIT: u32 = 16_776_960;

// How many words a state has.
pub(crate) const GENERATOR_WORDS: usize = 771;

pub(crate) const MONITOR_WORDS: usize = 1_284;

// Where its fields stand, or begin, one behind the other; a generator has those before the closed figures.
const HORIZON: usize = 0;

const UNLIMITED: usize = 1;

const UPPER: usize = 2;

const LOWER: usize = 258;

const HELD: usize = 514;

const TICKS: usize = 515;

const CLOSED_UPPER: usize = 771;

const CLOSED_LOWER: usize = 1_027;

const FAILED: usize = 1_283;

// Question 12 of a generator's words.
pub(crate) fn generator_legality(words: &[u32]) -> Result<(), BadState>
    ensures { MatchResult result (λ _. LegalGeneratorWords words.now) (λ _. ¬ LegalGeneratorWords words.now) }
{
    if words.len() != GENERATOR_WORDS {
        return Err(BadState);
    }
    history_legality(words)
}

// And of a monitor's.
pub(crate) fn monitor_legality(words: &[u32]) -> Result<(), BadState>
    ensures { MatchResult result (λ _. LegalMonitorWords words.now) (λ _. ¬ LegalMonitorWords words.now) }
{
    if words.len() != MONITOR_WORDS {
        return Err(BadState);
    }
    history_legality(words)?;
    closed_legality(words)
}

// What question 12 asks of the words that both have.
fn history_legality(words: &[u32]) -> Result<(), BadState>
    requires { generator_words ≤ length words.now }
    ensures { MatchResult result (λ _. Legal (view_of (history_from words.now)))
        (λ _. ¬ Legal (view_of (history_from words.now))) }
{
    let horizon = words[HORIZON] as usize;
    if MAX_HORIZON < horizon || horizon <= words[HELD] as usize {
        return Err(BadState);
    }
    let view = view(words);
    if !view.curves.within(FIGURE_LIMIT) {
        return Err(BadState);
    }
    Ok(())
}

// What it asks of the closed figures; without ceilings, nothing.
fn closed_legality(words: &[u32]) -> Result<(), BadState>
    requires { (length words.now ≡ monitor_words) × (word 0 words.now ≤ max_horizon) }
    ensures { MatchResult result (λ _. ClosedWords words.now) (λ _. ¬ ClosedWords words.now) }
{
    let closed = closed(words);
    if closed.unlimited {
        return Ok(());
    }
    if !(bounds::within_limit(closed.upper) & bounds::within_limit(closed.lower)) {
        return Err(BadState);
    }
    Ok(())
}

// What counts of the history in the words: the figures up to the horizon, and the held ticks.
pub(crate) fn view(words: &[u32]) -> View<'_>
    requires { (generator_words ≤ length words.now) × (word 0 words.now ≤ max_horizon) × (word 514 words.now ≤ max_horizon) }
    ensures view { view_in result ≡ view_of (history_from words.now) }
    ensures upper_len { length result.curves.upper.now ≡ word 0 words.now }
    ensures lower_len { length result.curves.lower.now ≡ word 0 words.now }
    ensures ticks_len { length result.ticks.now ≡ word 514 words.now }
{
    let horizon = words[HORIZON] as usize;
    let held = words[HELD] as usize;
    let curves = Curves {
        upper: &words[UPPER..UPPER + horizon],
        lower: &words[LOWER..LOWER + horizon],
        unlimited: 0 < words[UNLIMITED],
    };
    View {
        curves,
        ticks: &words[TICKS..TICKS + held],
    }
}

// The closed figures of a monitor, with the mark of the pair: where it is set, they have no effect.
pub(crate) fn closed(words: &[u32]) -> Curves<'_>
    requires { (length words.now ≡ monitor_words) × (word 0 words.now ≤ max_horizon) }
    ensures upper { result.upper.now ≡ entries (word 0 words.now) (part 771 256 words.now) }
    ensures lower { result.lower.now ≡ entries (word 0 words.now) (part 1_027 256 words.now) }
    ensures unlimited { result.unlimited ≡ mark_from (word 1 words.now) }
{
    let horizon = words[HORIZON] as usize;
    Curves {
        upper: &words[CLOSED_UPPER..CLOSED_UPPER + horizon],
        lower: &words[CLOSED_LOWER..CLOSED_LOWER + horizon],
        unlimited: 0 < words[UNLIMITED],
    }
}

// Whether a tick of a monitor was rejected.
pub(crate) fn failed(words: &[u32]) -> bool
    requires { length words.now ≡ monitor_words }
    ensures { result ≡ mark_from (word 1_283 words.now) }
{
    0 < words[FAILED]
}

// The history that words spell, by value.
pub(crate) fn read_history(words: &[u32]) -> History
    requires { generator_words ≤ length words.now }
    ensures { result ≡ history_from words.now }
{
    History {
        horizon: words[HORIZON] as usize,
        upper: array_of(&words[UPPER..LOWER]),
        lower: array_of(&words[LOWER..HELD]),
        unlimited: 0 < words[UNLIMITED],
        held: words[HELD] as usize,
        ticks: array_of(&words[TICKS..CLOSED_UPPER]),
    }
}

// And the monitor.
pub(crate) fn read_monitor(words: &[u32]) -> Monitor
    requires { length words.now ≡ monitor_words }
    ensures { result ≡ monitor_from words.now }
{
    Monitor {
        history: read_history(words),
        closed_upper: array_of(&words[CLOSED_UPPER..CLOSED_LOWER]),
        closed_lower: array_of(&words[CLOSED_LOWER..FAILED]),
        failed: failed(words),
    }
}

// A list of 256 entries as an array.
fn array_of(list: &[u32]) -> [u32; MAX_HORIZON]
    requires { length list.now ≡ max_horizon }
    ensures { result ≡ list.now }
{
    *list.first_chunk().unwrap()
}

// Puts counts behind the held ticks: the last of all of them, one fewer than the horizon at most, are then held.
pub(crate) fn hold(words: &mut [u32], counts: &[u32])
    requires { (generator_words ≤ length words.old) × Legal (view_of (history_from words.old)) }
    ensures { words.new ≡ with_held words.old (held_after words.old counts.now) }
{
    let room = words[HORIZON] as usize - 1;
    let held = words[HELD] as usize;
    let now_held = lists::push_all(&mut words[TICKS..TICKS + room], held, counts);
    words[HELD] = now_held as u32;
}

// Writes the held ticks of a history.
pub(crate) fn write_held(words: &mut [u32], history: History)
    requires { (generator_words ≤ length words.old) × (history.held ≤ max_horizon) }
    ensures { words.new ≡ with_held words.old (view_of history).held }
{
    let held = history.held;
    words[HELD] = held as u32;
    words[TICKS..TICKS + held].copy_from_slice(&history.ticks[..held]);
}

// Writes the failed mark; one that is set stays as it is.
pub(crate) fn write_failed(words: &mut [u32], failed: bool)
    requires { length words.old ≡ monitor_words }
    ensures { words.new ≡ set words.old 1_283 (failed_word (word 1_283 words.old) failed) }
{
    if failed & (words[FAILED] == 0) {
        words[FAILED] = 1;
    }
}

// Writes a monitor that has been opened on a pair, into all of its words.
pub(crate) fn write_monitor(words: &mut [u32], curves: Curves, opened: Monitor)
    requires { (length words.old ≡ monitor_words) × PairFits curves.upper.now curves.lower.now }
    ensures { words.new ≡ opened_words (curves_in curves.entry)
        ++ closed_from (shown (length curves.entry.upper.now) curves.entry.unlimited) opened }
{
    let n = figures_shown(curves);
    write_pair(&mut words[..GENERATOR_WORDS], curves);
    write_closed(
        &mut words[GENERATOR_WORDS..],
        &opened.closed_upper[..n],
        &opened.closed_lower[..n],
    );
}

// Of how many windows there are ceilings and closed figures.
fn figures_shown(curves: Curves) -> usize
    ensures { result ≡ shown (length curves.entry.upper.now) curves.entry.unlimited }
{
    if curves.unlimited {
        0
    } else {
        curves.upper.len()
    }
}

// Writes a pair with no held ticks, into all of a generator's words.
pub(crate) fn write_pair(words: &mut [u32], curves: Curves)
    requires { (length words.old ≡ generator_words) × PairFits curves.upper.now curves.lower.now }
    ensures { words.new ≡ opened_words (curves_in curves.entry) }
{
    let n = figures_shown(curves);
    words[HORIZON] = curves.upper.len() as u32;
    words[UNLIMITED] = u32::from(curves.unlimited);
    write_figures(&mut words[UPPER..LOWER], &curves.upper[..n]);
    write_figures(&mut words[LOWER..HELD], curves.lower);
    words[HELD..].fill(0);
}

// Writes the closed figures, and that the monitor has not failed.
fn write_closed(words: &mut [u32], closed_upper: &[u32], closed_lower: &[u32])
    requires { (length words.old ≡ 513) × PairFits closed_upper.now closed_lower.now }
    ensures { words.new ≡ padded closed_upper.now ++ (padded closed_lower.now ++ (0 ∷ [])) }
{
    write_figures(&mut words[..MAX_HORIZON], closed_upper);
    write_figures(&mut words[MAX_HORIZON..2 * MAX_HORIZON], closed_lower);
    words[2 * MAX_HORIZON] = 0;
}

// Figures, and 0 behind them.
fn write_figures(places: &mut [u32], figures: &[u32])
    requires { (length places.old ≡ max_horizon) × (length figures.now ≤ max_horizon) }
    ensures { places.new ≡ padded figures.now }
{
    places[..figures.len()].copy_from_slice(figures);
    places[figures.len()..].fill(0);
}
