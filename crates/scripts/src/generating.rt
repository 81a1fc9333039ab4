// A list of choices on a generator's words.

ghost use Rattle.std.specs.Prelude.{◌≡◌, length};
ghost use Rattle.history.specs.States.{view_of};
ghost use Rattle.scripts.specs.Words.{LegalGeneratorWords};
ghost use Rattle.scripts.specs.Runs.{SentFirst, SentRest, SentByValue};

use crate::codes::sending_code;
use crate::{sending, words};
use generator::Generator;

// The choices that can be sent by sums in 32 bits, from the first on, without a state by value. Gives back how many they are.
pub(crate) fn send_first(state: &mut [u32], choices: &[u32], counts: &mut [u32]) -> usize
    requires { LegalGeneratorWords state.old × (length counts.old ≡ length choices.now) }
    ensures { SentFirst state.old choices.now counts.old state.new
        counts.new result }
{
    let n = sending::send_first(words::view(state), choices, counts);
    words::hold(state, &counts[..n]);
    n
}

// The others, tick after tick, on the state by value.
pub(crate) fn send_rest(state: &mut [u32], choices: &[u32], counts: &mut [u32])
    requires { LegalGeneratorWords state.old × (length counts.old ≡ length choices.now) }
    ensures { SentRest state.old choices.now state.new counts.new }
{
    let history = words::read_history(state);
    let left = send_all(Generator { history }, choices, counts);
    words::write_held(state, left.history);
}

// Each choice by the state that the one before it left.
fn send_all(mut generator: Generator, choices: &[u32], counts: &mut [u32]) -> Generator
    requires { length counts.old ≡ length choices.now }
    ensures { SentByValue (view_of generator.history) choices.now counts.new result }
{
    for (i, choice) in choices.iter().enumerate() {
        let sent = generator.tick(*choice);
        counts[i] = sending_code(sent.sending);
        generator = sent.next;
    }
    generator
}
