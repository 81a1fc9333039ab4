// The figures program as a function: constraint text in, the whole output back.

#![tactic(auto)]

ghost use Rattle.std.specs.Prelude.{Ok, ◌≡◌, ◌≤◌, length};
ghost use Rattle.curves.specs.Pairs.{pair_of};
ghost use Rattle.bounds.specs.Answers.{curves_in};
ghost use Rattle.rendering.specs.Rendering.{written};
ghost use Rattle.rendering.specs.Answers.{rendering_answer};
ghost use Rattle.report.specs.Report.{first_marked, output};
ghost use Rattle.report.specs.Steps.{shown};

use bounds::Curves;
use rendering::Text;

// The longest horizon.
const MAX_HORIZON: usize = 256;

// The closed curves of the constraints in `text`, as text of the same layout; or the number of the question that is answered no.
pub fn report(text: &[u8]) -> Text
    ensures { rendering_answer (Ok result) ≡ written (output text.now) }
{
    closed_curves(text).unwrap_or_else(rendering::render_refusal)
}

// The closed curves as text, or that number: the text is read, the pair closed, and the closure rendered.
fn closed_curves(text: &[u8]) -> Result<Text, u32>
    ensures { shown result ≡ written (output text.now) }
{
    let mut upper = [0; MAX_HORIZON];
    let mut lower = [0; MAX_HORIZON];
    let read = constraints::read(text, &mut upper, &mut lower)?;
    let curves = first(&upper, &lower, read.horizon, read.unlimited);
    let mut closed_upper = [0; MAX_HORIZON];
    let mut closed_lower = [0; MAX_HORIZON];
    let closed = closure::close(curves, &mut closed_upper, &mut closed_lower)?;
    let closure = first(&closed_upper, &closed_lower, read.horizon, closed.unlimited);
    Ok(rendering::render(closure)?)
}

// The pair in the first entries of two lists.
fn first<'a>(upper: &'a [u32], lower: &'a [u32], horizon: usize, unlimited: bool) -> Curves<'a>
    requires { (horizon ≤ length upper.now) × (horizon ≤ length lower.now) }
    ensures { curves_in result ≡ first_marked horizon (pair_of upper.now lower.now) unlimited }
{
    Curves {
        upper: &upper[..horizon],
        lower: &lower[..horizon],
        unlimited,
    }
}
