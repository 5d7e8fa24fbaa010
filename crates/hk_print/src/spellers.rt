//! What gives names their texts (`docs/FORMATS.md`, "Names").

ghost use Rattle.std.specs.Prelude.{◌≡◌, ◌++◌, IfOk, OnOk, string_bytes};
ghost use Rattle.hk_model.specs.WorldValue.{IsTypeOrAny};
ghost use Rattle.hk_format.specs.EntryTexts.{kind_spelled, IsSpelledOrAny};

use crate::labels::object_label;
use crate::numbers::write_number;
use hk_model::{Name, NoMemory, World};
use std::alloc::Global;

/// Gives names their texts: the labels of a world, or numbers.
pub trait Speller {
    ghost use Rattle.std.specs.Prelude.{ℕ, List};
    ghost use Rattle.hk_model.specs.declared.names.Name.{Name};

    /// The names that have a text.
    ghost spells: { Self → Name → Type 0 };

    /// The text of each.
    ghost name_text: { Self → Name → List ℕ };

    /// Writes the text of a name. The only error is want of memory.
    fn spell(&self, out: &mut String, name: Name) -> Result<(), NoMemory>
        requires { spells self.now name }
        ensures { OnOk result (string_bytes out.new ≡ string_bytes out.old ++ name_text self.now name) };
}

/// The labels of its objects.
impl Speller for World {
    ghost use Rattle.hk_model.specs.WorldValue.{IsObject};
    ghost use Rattle.hk_format.specs.Names.{spoken, object_text};

    ghost spells = { IsObject };

    ghost name_text = { λ w name. object_text (spoken w) name };

    fn spell(&self, out: &mut String, name: Name) -> Result<(), NoMemory> {
        out.push_str(object_label(self, name))?;
        Ok(())
    }
}

/// Names as the numbers that they are.
#[derive(Clone, Copy, PartialEq, Eq, Debug)]
pub struct ByNumber;

impl Speller for ByNumber {
    ghost use Rattle.hk_format.specs.EntryTexts.{by_number};

    ghost spells = { λ _ _. Unit {0} };

    ghost name_text = { λ _ name. by_number name };

    fn spell(&self, out: &mut String, name: Name) -> Result<(), NoMemory> {
        write_number(out, name.0)
    }
}

/// The text of a type, or `any`. The only error is want of memory.
pub fn kind_text<S: Speller>(
    alloc: Global,
    speller: &S,
    of: Option<Name>,
) -> Result<String, NoMemory>
    requires { IsSpelledOrAny (S.spells speller.now) of }
    ensures { IfOk result (λ t. string_bytes t ≡ kind_spelled (S.name_text speller.now) of) }
{
    let mut out = String::new(alloc);
    write_kind(&mut out, speller, of)?;
    Ok(out)
}

/// Writes the text of a type, or `any`.
pub(crate) fn write_kind<S: Speller>(
    out: &mut String,
    speller: &S,
    of: Option<Name>,
) -> Result<(), NoMemory>
    requires { IsSpelledOrAny (S.spells speller.now) of }
    ensures { OnOk result (string_bytes out.new ≡ string_bytes out.old ++ kind_spelled (S.name_text speller.now) of) }
{
    match of {
        Some(name) => speller.spell(out, name),
        None => {
            out.push_str("any")?;
            Ok(())
        }
    }
}
