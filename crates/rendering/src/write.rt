// A text, and what puts its parts one after the other.

ghost use Rattle.std.specs.Prelude.{◌≤◌};
ghost use Rattle.rendering.specs.Rendering.{longest};

// The longest text.
const LONGEST: usize = 5_799;

// The text is the first `length` bytes; the others are 0. Its memory is its own, as nothing here asks for memory.
#[derive(Clone, Copy)]
pub struct Text {
    pub length: usize,
    pub bytes: [u8; LONGEST],
    pub ghost fits: { length ≤ longest },
}

impl Text {
    ghost use Rattle.std.specs.Prelude.{Ok, ◌≡◌, ◌+◌, ◌<◌, [], ◌∷◌, length, take};
    ghost use Rattle.csv_text.specs.Numbers.{decimal};
    ghost use Rattle.csv_text.specs.Records.{most_in};
    ghost use Rattle.rendering.specs.Rendering.{line, written};
    ghost use Rattle.rendering.specs.Answers.{rendering_answer};
    ghost use Rattle.rendering.specs.Steps.{line_length, Pushed};

    // The bytes of the text alone.
    pub fn as_bytes(&self) -> &[u8]
        ensures { result.now ≡ take self.now.length self.now.bytes }
    {
        &self.bytes[..self.length]
    }

    // No text yet.
    pub(crate) fn new() -> Text
        ensures { rendering_answer (Ok result) ≡ written [] }
    {
        Text {
            length: 0,
            bytes: [0; LONGEST],
        }
    }

    // A record: three numbers between commas, ended by CR LF. Where there is no most, the last field is empty.
    pub(crate) fn push_record(&mut self, window: u32, least: u32, most: Option<u32>)
        requires { self.old.length + line_length window least (most_in most) ≤ longest }
        ensures { Pushed self.old (line window least (most_in most)) self.new }
    {
        self.push_number(window);
        self.push(b',');
        self.push_number(least);
        self.push(b',');
        if let Some(most) = most {
            self.push_number(most);
        }
        self.push_two(b'\r', b'\n');
    }

    // A number in decimal digits, by two: those of its hundredth first. Each time the text's length waits for what was stored before it.
    pub(crate) fn push_number(&mut self, n: u32)
        requires { self.old.length + length (decimal n) ≤ longest }
        ensures { Pushed self.old (decimal n) self.new }
    {
        if n < 10 {
            self.push(b'0' + n as u8);
            return;
        }
        if 100 <= n {
            self.push_number(n / 100);
        }
        self.push_two(b'0' + (n / 10 % 10) as u8, b'0' + (n % 10) as u8);
    }

    // Bytes as they are.
    pub(crate) fn push_bytes(&mut self, bytes: &[u8])
        requires { self.old.length + length bytes.now ≤ longest }
        ensures { Pushed self.old bytes.now self.new }
    {
        let end = self.length + bytes.len();
        self.bytes[self.length..end].copy_from_slice(bytes);
        self.length = end;
    }

    // One byte.
    fn push(&mut self, byte: u8)
        requires { self.old.length < longest }
        ensures { Pushed self.old (byte ∷ []) self.new }
    {
        self.bytes[self.length] = byte;
        self.length += 1;
    }

    // Two bytes.
    fn push_two(&mut self, first: u8, second: u8)
        requires { self.old.length + 2 ≤ longest }
        ensures { Pushed self.old (first ∷ second ∷ []) self.new }
    {
        self.bytes[self.length] = first;
        self.bytes[self.length + 1] = second;
        self.length += 2;
    }
}
