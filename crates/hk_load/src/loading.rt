//! The world of a script (`docs/FORMATS.md`, "Loading").

ghost use Rattle.std.specs.Prelude.{◌≡◌, ℕ, Ok, Err, IfOk, map};
ghost use Rattle.hk_format.specs.declared.causes.LoadCause.{LoadCause};
ghost use Rattle.hk_format.specs.declared.syntax.Item.{Item};
ghost use Rattle.hk_format.specs.Syntax.{IsSyntax};
ghost use Rattle.hk_format.specs.Loading.{load, names_of};
ghost use Rattle.hk_format.specs.Outcomes.{IsRefused, GivesAll};
ghost use Rattle.hk_script.specs.Given.{names_given};

use crate::copies::item_copies;
use crate::errors::LoadError;
use crate::items::Loaded;
use crate::names::Declared;
use hk_format::Item;
use hk_model::{Items, World};
use hk_script::{Names, Syntax};
use std::alloc::Global;

/// The world that a script declares. `Refused` tells the first line that can not be loaded, and the
/// first of its causes (`docs/FORMATS.md`, "Loading"). Want of memory is `NoMemory`.
pub fn load(alloc: Global, syntax: &Syntax) -> Result<World, LoadError>
    ensures ok { IfOk result (λ w. load syntax.now ≡ Ok w) }
    ensures refused { (line : ℕ) (cause : LoadCause) → IsRefused result line cause → load syntax.now ≡ Err (line, cause) }
{
    let items = item_copies(alloc, syntax.items())?;
    load_items(alloc, syntax.names(), items)
}

/// The world that a script declares, as `load` gives it. The script is used up: its names become the labels
/// of the world, its instructions take their paths from it, and each item is let go of once it is loaded.
/// `Refused` and `NoMemory` are those of `load`.
pub fn load_owned(alloc: Global, syntax: Syntax) -> Result<World, LoadError>
    ensures ok { IfOk result (λ w. load syntax ≡ Ok w) }
    ensures refused { (line : ℕ) (cause : LoadCause) → IsRefused result line cause → load syntax ≡ Err (line, cause) }
{
    let (items, names) = syntax.into_parts();
    load_items(alloc, &names, items)
}

/// The world of these items, whose heads give these names.
fn load_items(alloc: Global, names: &Names, items: Items<Item>) -> Result<World, LoadError>
    requires syntax { IsSyntax items }
    requires names { names.now ≡ names_given items }
    ensures { GivesAll (λ x. x) result (load items) }
{
    let declared = Declared::of(alloc, names, items.as_slice())?;
    load_with(alloc, &declared, items.into_vec())
}

/// The world of these items, whose heads declare these names.
fn load_with(alloc: Global, declared: &Declared, items: Vec<Item>) -> Result<World, LoadError>
    requires syntax { IsSyntax items.items }
    requires names { declared.now ≡ names_of (map (λ (i : Item). i.head) items.items) }
    ensures { GivesAll (λ x. x) result (load items.items) }
{
    let mut loaded = Loaded::new(alloc);
    for item in items {
        let Item { line, head, parts } = item;
        loaded.add(alloc, declared, line, head, parts)?;
    }
    Ok(loaded.finish())
}
