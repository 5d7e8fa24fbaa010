//! What an event changes of the frames of its process (`docs/RULES.md`, "Lines taken back").

ghost use Rattle.std.specs.Prelude.{◌≡◌};
ghost use Rattle.hk_undo.specs.Pasts.{CanPutBack, frames_back, frames_kept};

use hk_model::{Acted, Call, Frame, Reply};
use hk_program::Context;

/// What an event changed of the frames of its process, as it was before.
#[derive(Drop)]
pub(crate) enum FramesBefore {
    /// The current frame was this one.
    Changed(Frame),
    /// A frame was put before the others, and the one behind it was this one.
    Entered(Frame),
    /// The current frame, which was this one, was taken away.
    Left(Frame),
    /// All frames, which were these, were taken away.
    Halted(Context),
}

/// What a call keeps of the current frame as it was before (`docs/RULES.md`, "Lines taken back").
pub(crate) fn frames_kept(call: &Call, acted: &Acted, frame: Frame) -> FramesBefore
    ensures { result ≡ frames_kept call.now acted.now.reply acted.now.code frame }
{
    match (acted.code, call, acted.reply) {
        (Some(_), _, _) => FramesBefore::Entered(frame),
        (None, Call::Leave { .. }, Reply::Done) => FramesBefore::Left(frame),
        _ => FramesBefore::Changed(frame),
    }
}

/// Makes the frames those before the event (`docs/RULES.md`, "Lines taken back"). It takes no memory.
pub(crate) fn put_back(context: &mut Context, kept: FramesBefore)
    requires { CanPutBack kept context.old }
    ensures { context.new ≡ frames_back kept context.old }
{
    match kept {
        FramesBefore::Changed(frame) => context.put_top(frame),
        FramesBefore::Entered(frame) => {
            context.pop();
            context.put_top(frame);
        }
        FramesBefore::Left(frame) => context.push(frame),
        FramesBefore::Halted(before) => *context = before,
    }
}
