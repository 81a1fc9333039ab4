// One record of a constraint text: its part of the text, its fields, their numbers.

#![tactic(auto)]

ghost use Rattle.std.specs.Prelude.{◌≡◌};
ghost use Rattle.std.specs.Fn.{FnReturnsAt};
ghost use Rattle.laws.specs.Tests.{Tells};
ghost use Rattle.csv_text.specs.Records.{first_record};
ghost use Rattle.records.specs.Recording.{recording};
ghost use Rattle.records.specs.Answers.{record_reply};
ghost use Rattle.records.specs.Steps.{LineEnd, FieldEnd, CutBefore, SplitOff, Numbered, RecordInRange, Figured};

// The longest window, the largest least or most, and the most digits of a field.
const MAX_WINDOW: usize = 256;

const MESSAGE_LIMIT: u32 = 65_535;

const MAX_DIGITS: usize = 5;

// The constraint that a record spells, its figures in range, and how many bytes spell it. A last field that is empty gives no most.
#[derive(Clone, Copy, PartialEq, Eq)]
pub struct Record {
    pub window: usize,
    pub least: u32,
    pub most: Option<u32>,
    pub length: usize,
}

// Document 01's question of a record that is answered no.
#[derive(Clone, Copy, PartialEq, Eq)]
pub enum RecordRefusal {
    // 7: it is not three decimal fields, of which the last may be empty.
    Malformed,
    // 8: a figure is out of range.
    OutOfRange,
}

// Reads the record that the rest of a text begins with: the part up to the next CR LF, or all of it. Of an empty rest that is an empty
// record, which is malformed as any other is. The record is not searched for first: its fields end where it does.
pub fn read_record(rest: &[u8]) -> Result<Record, RecordRefusal>
    ensures { record_reply result ≡ recording (first_record rest.now) }
{
    let (window, after_window) = split_field(rest);
    let after_window = after_window.ok_or(RecordRefusal::Malformed)?;
    let (least, after_least) = split_field(after_window);
    let after_least = after_least.ok_or(RecordRefusal::Malformed)?;
    let (most, after_most) = split_field(after_least);
    if after_most.is_some() {
        return Err(RecordRefusal::Malformed);
    }
    let length = rest.len() - after_least.len() + most.len();
    parse_fields(window, least, most, length)
}

// The record that a text begins with: the part up to the next CR LF, or all of it.
pub fn find_record(text: &[u8]) -> &[u8]
    ensures { result.now ≡ first_record text.now }
{
    part_before(text, ends_line)
}

// The field that a text begins with, the part up to the next comma or CR LF, or all of it; and what follows its comma, if it has one.
fn split_field(text: &[u8]) -> (&[u8], Option<&[u8]>)
    ensures { SplitOff text.now result.0.now result.1 }
{
    let field = part_before(text, ends_field);
    (field, text[field.len()..].strip_prefix(b","))
}

// What stands before the first place of a text from which on a test says yes, or all of it.
fn part_before<F: Fn(&[u8]) -> bool>(text: &[u8], ends: F) -> &[u8]
    requires { F.IsAlwaysCallable ends }
    ensures { CutBefore (FnReturnsAt F.Fn ends) text.now result.now }
{
    for n in 0..text.len() {
        if ends(&text[n..]) {
            return &text[..n];
        }
    }
    text
}

// Whether a text begins with CR LF. Byte by byte: at most places the first one tells; a test of both at once first joins them to one.
fn ends_line(text: &[u8]) -> bool
    ensures { Tells result (LineEnd text.now) }
{
    text.starts_with(b"\r") && text[1..].starts_with(b"\n")
}

// Whether it begins with a comma or CR LF.
fn ends_field(text: &[u8]) -> bool
    ensures { Tells result (FieldEnd text.now) }
{
    text.starts_with(b",") || ends_line(text)
}

// What the three fields of a record of so many bytes spell.
fn parse_fields(
    window: &[u8],
    least: &[u8],
    most: &[u8],
    length: usize,
) -> Result<Record, RecordRefusal>
    ensures { Figured window.now least.now most.now length result }
{
    let window = parse_number(window).ok_or(RecordRefusal::Malformed)? as usize;
    let least = parse_number(least).ok_or(RecordRefusal::Malformed)?;
    let most = if most.is_empty() {
        None
    } else {
        Some(parse_number(most).ok_or(RecordRefusal::Malformed)?)
    };
    let record = Record {
        window,
        least,
        most,
        length,
    };
    if record.in_range() {
        Ok(record)
    } else {
        Err(RecordRefusal::OutOfRange)
    }
}

// The number that a field spells: 1 to 5 digits with no leading zero.
fn parse_number(field: &[u8]) -> Option<u32>
    ensures { Numbered field.now result }
{
    if field.is_empty() || MAX_DIGITS < field.len() {
        return None;
    }
    if field[0] == b'0' && 1 < field.len() {
        return None;
    }
    let mut value = 0;
    for b in field {
        if !b.is_ascii_digit() {
            return None;
        }
        value = value * 10 + u32::from(*b - b'0');
    }
    Some(value)
}

impl Record {
    // Whether its figures are in range.
    fn in_range(self) -> bool
        ensures { Tells result (RecordInRange self) }
    {
        (1..=MAX_WINDOW).contains(&self.window)
            && self.least <= MESSAGE_LIMIT
            && self.most.is_none_or(|most| most <= MESSAGE_LIMIT)
    }
}
