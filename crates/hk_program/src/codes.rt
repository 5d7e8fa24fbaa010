//! The code that a frame is in.

ghost use Rattle.std.specs.Prelude.{◌≡◌};
ghost use Rattle.hk_model.specs.WorldValue.{IsCode};
ghost use Rattle.hk_model.specs.Control.{steps_of};
ghost use Rattle.hk_program.specs.Contexts.{IsFrame};

use hk_model::{Code, Frame, World};

/// The code of a frame of the world.
pub(crate) fn code_of<'a>(world: &'a World, frame: &Frame) -> &'a Code
    requires { IsFrame world.now frame.now }
    ensures steps { result.now.steps ≡ steps_of world.now frame.now.code }
    ensures valid { IsCode result.now }
{
    &world.codes()[frame.code as usize]
}
