// Rendering a pair of arrival curves as constraint text: the header line, then a record for every window.

#![tactic(auto)]

mod write;

ghost use Rattle.std.specs.Prelude.{Ok, ◌≡◌};
ghost use Rattle.curves.specs.Questions.{AllYes};
ghost use Rattle.bounds.specs.Bounds.{pair_questions};
ghost use Rattle.bounds.specs.Answers.{curves_in};
ghost use Rattle.rendering.specs.Rendering.{text_of, refusal_line, written, rendering};
ghost use Rattle.rendering.specs.Answers.{rendering_answer};

use bounds::{Curves, PairRefusal};
pub use write::Text;

// The text of a pair, entry 0 for the window of one tick. Where it has no ceilings, `upper` gives the horizon alone, and the last field of
// each record is empty.
pub fn render(curves: Curves) -> Result<Text, PairRefusal>
    ensures { rendering_answer result ≡ rendering (curves_in curves.entry) }
{
    curves.ask()?;
    Ok(written(curves))
}

// The text of a pair that passes the questions: the header line and then the record of each window.
fn written(curves: Curves) -> Text
    requires { AllYes (pair_questions (curves_in curves)) }
    ensures { rendering_answer (Ok result) ≡ written (text_of (curves_in curves.entry)) }
{
    let mut text = Text::new();
    text.push_bytes(b"window,least,most\r\n");
    for (i, least) in curves.lower.iter().enumerate() {
        let most = (!curves.unlimited).then_some(curves.upper[i]);
        text.push_record(i as u32 + 1, *least, most);
    }
    text
}

// The line that tells a refusal with this number, whichever operation gave it.
pub fn render_refusal(number: u32) -> Text
    ensures { rendering_answer (Ok result) ≡ written (refusal_line number) }
{
    let mut text = Text::new();
    text.push_bytes(b"refused ");
    text.push_number(number);
    text.push_bytes(b"\r\n");
    text
}
