// Constraints (triples) as CSV text: reading the pair of arrival curves that they stand for.

#![tactic(auto)]

mod table;

ghost use Rattle.std.specs.Prelude.{◌≡◌, drop};
ghost use Rattle.laws.specs.Tests.{Tells};
ghost use Rattle.curves.specs.Pairs.{pair_of};
ghost use Rattle.constraints.specs.Reading.{question6, reading};
ghost use Rattle.constraints.specs.Answers.{refused_by, reading_refusal_number, reading_answer};

use records::RecordRefusal;

// The longest text, in bytes; the header; and where the records begin, after it and its CR LF.
const MAX_TEXT: usize = 16_384;

const HEADER: &[u8] = b"window,least,most";

const HEADER_LINE: usize = 19;

// The pair that is put into the result lists: its horizon, and its mark. `unlimited` is set where no record has a most, and then the pair
// has no ceilings.
#[derive(Clone, Copy, PartialEq, Eq)]
pub struct Reading {
    pub horizon: usize,
    pub unlimited: bool,
}

// Document 01's question of reading that is answered no.
#[derive(Clone, Copy, PartialEq, Eq)]
pub enum ReadingRefusal {
    // 6: the text is longer than 16,384 bytes or does not begin with the header line.
    HeaderLine,
    // 7: the first faulty record is not three decimal fields, of which the last may be empty.
    RecordForm,
    // 8: a figure of it is out of range.
    FigureRange,
    // 9: its window was named before.
    WindowAgain,
    // 10: there is no record.
    NoRecord,
    // 11: a result list is too short.
    ResultLength,
}

impl From<RecordRefusal> for ReadingRefusal {
    ghost from_gives = { λ refusal result. result ≡ refused_by refusal };

    fn from(refusal: RecordRefusal) -> ReadingRefusal {
        match refusal {
            RecordRefusal::Malformed => ReadingRefusal::RecordForm,
            RecordRefusal::OutOfRange => ReadingRefusal::FigureRange,
        }
    }
}

impl From<ReadingRefusal> for u32 {
    ghost from_gives = { λ refusal number. number ≡ reading_refusal_number refusal };

    fn from(refusal: ReadingRefusal) -> u32 {
        match refusal {
            ReadingRefusal::HeaderLine => 6,
            ReadingRefusal::RecordForm => 7,
            ReadingRefusal::FigureRange => 8,
            ReadingRefusal::WindowAgain => 9,
            ReadingRefusal::NoRecord => 10,
            ReadingRefusal::ResultLength => 11,
        }
    }
}

// Reads the constraints of `text`. Their pair goes to the first entries of `upper` and `lower`, entry 0 for the window of one tick; the
// others, and on a refusal all, stay as they are. Of a pair without ceilings, `upper` stays as it is.
pub fn read(text: &[u8], upper: &mut [u32], lower: &mut [u32]) -> Result<Reading, ReadingRefusal>
    ensures { reading_answer result (pair_of upper.new lower.new)
        ≡ reading text.now (pair_of upper.old lower.old) }
{
    if !has_header(text) {
        return Err(ReadingRefusal::HeaderLine);
    }
    let mut table = table::Table::new();
    table.read_records(skip(text, HEADER_LINE))?;
    table.deliver(upper, lower)
}

// Whether a text is within the limit, and its first line is the header.
fn has_header(text: &[u8]) -> bool
    ensures { Tells result (question6 text.now).asked }
{
    text.len() <= MAX_TEXT && records::find_record(text) == HEADER
}

// A text without its first bytes: none is left where there are no more than those.
fn skip(text: &[u8], bytes: usize) -> &[u8]
    ensures { result.now ≡ drop bytes text.now }
{
    text.get(bytes..).unwrap_or(&[])
}
