// The figures program: constraint text on standard input, its closed curves on standard output.

#![tactic(auto)]

ghost use Rattle.std.specs.Prelude.{◌≤◌, IfOk, length};

use std::io;
use std::io::Read;

// One byte more than the longest text, so that a longer one is seen to be too long.
const ROOM: usize = 16_385;

fn main(rt: HostRuntime) -> io::Result<()> {
    let mut text = [0; ROOM];
    match read_input(&mut rt.stdin(), &mut text) {
        Ok(n) => write_report(&rt, &text[..n]),
        Err(error) => eprintln!(rt; "figures: standard input: {error}"),
    }
}

// Reads up to the end of the input, or until there is no room: so many bytes. The program `texts` has the same: a crate for it, with a test of
// its own, would be longer than the two.
fn read_input<R: Read>(from: &mut R, text: &mut [u8]) -> io::Result<usize>
    ensures { IfOk result (λ n. n ≤ length text.new) }
{
    let mut n = 0;
    // Stays a `while`: how far a turn comes is the reader's to say.
    while n < text.len() {
        let more = from.read(&mut text[n..])?;
        if more == 0 {
            break;
        }
        n += more;
    }
    Ok(n)
}

// Writes the output for a text.
fn write_report(rt: &(impl Print + Eprint), text: &[u8]) -> io::Result<()> {
    let report = report::report(text);
    rt.write_all(report.as_bytes())
        .or_else(|error| eprintln!(rt; "figures: standard output: {error}"))
}
