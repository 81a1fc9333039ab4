// Answers as entries of a list: numbers, as the lists that C lends have them.

ghost use Rattle.std.specs.Prelude.{◌≡◌, IfOk};
ghost use Rattle.monitor.specs.Answers.{verdict_reply};
ghost use Rattle.generator.specs.Answers.{sending_reply};
ghost use Rattle.scripts.specs.Codes.{ruling_code, sending_code};
ghost use Rattle.scripts.specs.Steps.{NamesWindow};

use generator::SendingRefusal;
use history::BadState;
use monitor::Verdict;

pub(crate) const PASSED: u32 = 0;

const TOO_MANY: u32 = 1_000;

const TOO_FEW: u32 = 2_000;

pub(crate) const ALREADY_FAILED: u32 = 3_000;

const LOST: u32 = 4_000;

// And a refusal, with its number added.
const REFUSED: u32 = 4_000_000_000;

// What a tick of a monitor answers. A window that is named stands beside the kind of verdict.
pub(crate) fn verdict_code(verdict: Result<Verdict, BadState>) -> u32
    requires { IfOk verdict NamesWindow }
    ensures { result ≡ ruling_code (verdict_reply verdict) }
{
    match verdict {
        Ok(Verdict::Passed) => PASSED,
        Ok(Verdict::TooMany { window }) => TOO_MANY + window as u32,
        Ok(Verdict::TooFew { window }) => TOO_FEW + window as u32,
        Ok(Verdict::Lost) => LOST,
        Ok(Verdict::AlreadyFailed) => ALREADY_FAILED,
        Err(refusal) => REFUSED + u32::from(refusal),
    }
}

// What a tick of a generator answers.
pub(crate) fn sending_code(sending: Result<u32, SendingRefusal>) -> u32
    ensures { result ≡ sending_code (sending_reply sending) }
{
    match sending {
        Ok(count) => count,
        Err(refusal) => REFUSED + u32::from(refusal),
    }
}
