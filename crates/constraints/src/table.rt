// The constraints read so far, by their windows.

ghost use Rattle.std.specs.Prelude.{ℕ, ◌≡◌, ◌≤◌, [], length};
ghost use Rattle.laws.specs.Ranges.{table};
ghost use Rattle.curves.specs.Pairs.{pair_of};
ghost use Rattle.bounds.specs.Bounds.{max_horizon};
ghost use Rattle.csv_text.specs.Text.{records};
ghost use Rattle.csv_text.specs.Records.{message_limit};
ghost use Rattle.constraints.specs.Reading.{text_limit};
ghost use Rattle.constraints.specs.Steps.{TableHolds, ScannedAs, Added, Sized, Delivered, InTable, ceiling_in, least_in};

use crate::{Reading, ReadingRefusal, skip};
use records::Record;

// The longest window.
const MAX_WINDOW: usize = 256;

// What a constraint names for its window.
#[derive(Clone, Copy, PartialEq, Eq)]
struct Row {
    least: u32,
    most: Option<u32>,
}

#[derive(Drop)]
pub(crate) struct Table {
    // The largest window that is named; 0 where none is.
    horizon: usize,
    // The smallest most; none where none is given.
    smallest: Option<u32>,
    // What is named for each window: entry 0 is that of the window of one tick.
    rows: [Option<Row>; MAX_WINDOW],
}

impl Table {
    // The table of no constraint.
    pub(crate) fn new() -> Table
        ensures { TableHolds result [] }
    {
        Table {
            horizon: 0,
            smallest: None,
            rows: [None; MAX_WINDOW],
        }
    }

    // Reads the records of a text, each by the rest of the text that it begins, into a table of no constraint; up to the first faulty one.
    pub(crate) fn read_records(&mut self, text: &[u8]) -> Result<(), ReadingRefusal>
        requires text_is_short { length text.now ≤ text_limit }
        requires holds_none { TableHolds self.old [] }
        ensures { ScannedAs (records text.now) self.new result }
    {
        let mut rest = text;
        // Stays a `while`: how far a turn comes is the record's to say.
        while !rest.is_empty() {
            let record = records::read_record(rest)?;
            self.add(record)?;
            rest = skip(rest, record.length + 2);
        }
        Ok(())
    }

    // Takes the constraint of a record, unless its window was named before.
    fn add(&mut self, constraint: Record) -> Result<(), ReadingRefusal>
        requires { InTable constraint.window }
        ensures { Added self.old self.new constraint result }
    {
        let row = &mut self.rows[constraint.window - 1];
        if row.is_some() {
            return Err(ReadingRefusal::WindowAgain);
        }
        *row = Some(Row {
            least: constraint.least,
            most: constraint.most,
        });
        self.horizon = self.horizon.max(constraint.window);
        if let Some(most) = constraint.most {
            self.smallest = Some(self.smallest.map_or(most, |smallest| smallest.min(most)));
        }
        Ok(())
    }

    // The pair of the constraints goes to the result lists, if there is a constraint and the lists are long enough.
    pub(crate) fn deliver(
        &self,
        upper: &mut [u32],
        lower: &mut [u32],
    ) -> Result<Reading, ReadingRefusal>
        requires { Sized self.now }
        ensures { Delivered self.now (pair_of upper.old lower.old) (pair_of upper.new lower.new) result }
    {
        let horizon = self.horizon;
        if horizon < 1 {
            return Err(ReadingRefusal::NoRecord);
        }
        if upper.len() < horizon || lower.len() < horizon {
            return Err(ReadingRefusal::ResultLength);
        }
        fill(&mut lower[..horizon], |window| self.least(window));
        if let Some(smallest) = self.smallest {
            fill(&mut upper[..horizon], |window| {
                self.ceiling(window, smallest)
            });
        }
        Ok(Reading {
            horizon,
            unlimited: self.smallest.is_none(),
        })
    }

    // The least of a window: 0 where it is not named.
    fn least(&self, window: usize) -> u32
        requires { InTable window }
        ensures { result ≡ least_in self.now.rows window }
    {
        self.rows[window - 1].map_or(0, |row| row.least)
    }

    // The ceiling of a window: the most that is given for it, or else its length times the smallest.
    fn ceiling(&self, window: usize, smallest: u32) -> u32
        requires window { InTable window }
        requires smallest { smallest ≤ message_limit }
        ensures { result ≡ ceiling_in smallest self.now.rows window }
    {
        self.rows[window - 1]
            .and_then(|row| row.most)
            .unwrap_or(window as u32 * smallest)
    }
}

// The figures of the windows from one tick on, into a list.
fn fill<F: Fn(usize) -> u32>(figures: &mut [u32], figure: F)
    requires { (d : ℕ) → 1 ≤ d → d ≤ length figures.old → F.pre figure d }
    ensures { (f : ℕ → ℕ)
        → ((d r : ℕ) → 1 ≤ d → d ≤ length figures.old → F.post figure d r → r ≡ f d)
        → figures.new ≡ table f (length figures.old) }
{
    for (i, entry) in figures.iter_mut().enumerate() {
        *entry = figure(i + 1);
    }
}
