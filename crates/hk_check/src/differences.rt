//! How a line differs from a step of its processor.

ghost use Rattle.std.specs.Prelude.{◌≡◌, Decides, IfNone, IfSome, Some};
ghost use Rattle.hk_model.specs.Verdicts.{Differs, IsBySame};
ghost use Rattle.hk_check.specs.Causes.{first_cause};

use hk_model::{Line, Misstep};

/// The first cause for which a line is not this step of its processor, as `docs/FORMATS.md`, "Legal
/// records", lists them. None exactly where it is the step.
pub(crate) fn difference(step: &Line, line: &Line) -> Option<Misstep>
    requires { step.now.cpu ≡ line.now.cpu }
    ensures some { IfSome result (λ cause. Differs (Some step.now) line.now cause) }
    ensures none { IfNone result (step.now ≡ line.now) }
{
    let by = is_by_same(step, line);
    let event = is_same_event(step, line);
    let reply = is_same_reply(step, line);
    first_cause(by, event, reply)
}

/// The first of the causes whose test fails.
fn first_cause(by: bool, event: bool, reply: bool) -> Option<Misstep>
    ensures { result ≡ first_cause by event reply }
{
    match (by, event, reply) {
        (false, _, _) => Some(Misstep::Process),
        (true, false, _) => Some(Misstep::Call),
        (true, true, false) => Some(Misstep::Reply),
        (true, true, true) => None,
    }
}

/// Whether the same process and incarnation make both.
fn is_by_same(step: &Line, line: &Line) -> bool
    ensures { Decides result (IsBySame step.now line.now) }
{
    step.proc == line.proc && step.inc == line.inc
}

/// Whether the event is the same.
fn is_same_event(step: &Line, line: &Line) -> bool
    ensures { Decides result (step.now.what ≡ line.now.what) }
{
    step.what == line.what
}

/// Whether the reply is the same.
fn is_same_reply(step: &Line, line: &Line) -> bool
    ensures { Decides result (step.now.reply ≡ line.now.reply) }
{
    step.reply == line.reply
}
