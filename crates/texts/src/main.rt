// Runs a set of texts through the function behind the figures program. Standard input has them: each stands below a line that says what it
// shows and is ended by a bar, which no text has. Each output is written below the same line.

#![tactic(auto)]

ghost use Rattle.std.specs.Prelude.{◌≤◌, IfOk, length};

use std::io;
use std::io::Read;

// All texts are shorter together.
const ROOM: usize = 65_536;

fn main(rt: HostRuntime) -> io::Result<()> {
    let mut input = [0; ROOM];
    let n = read_input(&mut rt.stdin(), &mut input)?;
    if n == 0 {
        return eprintln!(rt; "texts: standard input: nothing on it");
    }
    show_all(&rt, &input[..n])
}

// Reads up to the end of the input, or until there is no room: so many bytes. The program `figures` has the same: a crate for it, with a test of
// its own, would be longer than the two.
fn read_input<R: Read>(from: &mut R, input: &mut [u8]) -> io::Result<usize>
    ensures { IfOk result (λ n. n ≤ length input.new) }
{
    let mut n = 0;
    // Stays a `while`: how far a turn comes is the reader's to say.
    while n < input.len() {
        let more = from.read(&mut input[n..])?;
        if more == 0 {
            break;
        }
        n += more;
    }
    Ok(n)
}

// Shows one text after the other.
fn show_all(rt: &(impl Print + Eprint), input: &[u8]) -> io::Result<()> {
    for lines in input.split_inclusive(|byte| *byte == b'|') {
        show(rt, lines.strip_suffix(b"|").unwrap_or(lines))?;
    }
    Ok(())
}

// Writes the line above a text, and the output for the text.
fn show(rt: &(impl Print + Eprint), lines: &[u8]) -> io::Result<()> {
    let Some(n) = lines.iter().position(|byte| *byte == b'\n') else {
        return eprintln!(rt; "texts: a text without a line above it");
    };
    let (line, text) = lines.split_at(n + 1);
    rt.write_all(line)?;
    rt.write_all(report::report(text).as_bytes())
}
