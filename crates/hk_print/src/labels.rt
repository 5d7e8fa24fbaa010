//! The labels that stand for numbers in a script (`docs/FORMATS.md`, "Names").

ghost use Rattle.std.specs.Prelude.{◌≡◌, ◌+◌, ◌<◌, ◌≤◌, [], length, slice_index_or};
ghost use Rattle.hk_model.specs.WorldValue.{IsObject};
ghost use Rattle.hk_format.specs.Names.{spoken, object_text, code_text};

use hk_model::{Name, World};

/// The label of an object: a kernel type's name, or that of the object's line.
pub fn object_label(world: &World, name: Name) -> &str
    requires { IsObject world.now name }
    ensures { result.now ≡ object_text (spoken world.now) name }
{
    match name.0 {
        0 => "TYPE",
        1 => "DATA",
        2 => "UNIVERSAL",
        3 => "SEMAPHORE",
        4 => "PROCEDURE",
        5 => "PROCESS",
        6 => "LNS",
        number => declared_label(world, number),
    }
}

/// The label of an object that is no kernel type.
#[tactic(auto, using(crate::proofs::FoundLabels::declared_label))]
fn declared_label(world: &World, number: u64) -> &str
    requires above { 7 ≤ number }
    requires there { number < 7 + length world.now.objects }
    ensures { result.now ≡ slice_index_or (spoken world.now).objects number [] }
{
    let place = (number - 7) as usize;
    world.objects()[place].label.as_str()
}

/// The label of a code.
#[tactic(auto, using(crate::proofs::FoundLabels::code_label))]
pub fn code_label(world: &World, code: u16) -> &str
    requires { code < length world.now.codes }
    ensures { result.now ≡ code_text (spoken world.now) code }
{
    world.codes()[code as usize].label.as_str()
}
