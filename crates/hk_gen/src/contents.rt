//! The objects of a generated world (`docs/FORMATS.md`, "Generated worlds").

ghost use Rattle.std.specs.Prelude.{◌≡◌, ◌∷◌, [], IfOk};
ghost use Rattle.hk_model.specs.declared.world.Kind.TheVariants as kinds;
ghost use Rattle.hk_model.specs.Generated.{objects, name, born, bump_param, cbump, GETDATA+PUTDATA, GETDATA+PUTDATA+MODIFY};
ghost use Rattle.hk_model.specs.Targets.{DATA};

use hk_model::{Born, Entries, Items, Kind, Name, Param, Params, Text, Words};
use hk_rights::Rights;
use std::alloc::{AllocError, Global};

/// GETDATA and PUTDATA, to read and write words without the right to change.
fn reading_and_writing() -> Rights
    ensures { result ≡ GETDATA+PUTDATA }
{
    Rights::GETDATA.union(Rights::PUTDATA)
}

/// GETDATA, PUTDATA and MODIFY, to read and write words.
pub(crate) fn changing() -> Rights
    ensures { result ≡ GETDATA+PUTDATA+MODIFY }
{
    reading_and_writing().union(Rights::MODIFY)
}

/// The word that is counted up, which opens with 0.
fn total(alloc: Global) -> Result<Kind, AllocError>
    ensures { IfOk result (λ kind. kind ≡ kinds.Plain (name DATA) (0 ∷ []) []) }
{
    let mut words = Words::new(alloc);
    words.push(0)?;
    Ok(Kind::Plain {
        of: Name(1),
        words,
        entries: Entries::new(alloc),
    })
}

/// The procedure that counts it up: its argument is a DATA object, which it may change.
fn bump(alloc: Global) -> Result<Kind, AllocError>
    ensures { IfOk result (λ kind. kind ≡ kinds.Procedure cbump (bump_param ∷ []) []) }
{
    let mut params = Params::new(alloc);
    params.push(Param {
        of: Some(Name(1)),
        check: reading_and_writing(),
        give: changing(),
    })?;
    Ok(Kind::Procedure {
        code: 0,
        params,
        entries: Entries::new(alloc),
    })
}

/// An object of the script.
fn born(alloc: Global, label: &str, kind: Kind) -> Result<Born, AllocError>
    ensures { IfOk result (λ object. object ≡ born label.now kind) }
{
    Ok(Born {
        label: Text::from_str(alloc, label)?,
        kind,
    })
}

/// The word, the lock and the procedure.
pub(crate) fn objects(alloc: Global) -> Result<Items<Born>, AllocError>
    ensures { IfOk result (λ objects'. objects' ≡ objects) }
{
    let total = born(alloc, "total", total(alloc)?)?;
    let lock = born(alloc, "lock", Kind::Semaphore { count: 1 })?;
    let bump = born(alloc, "bump", bump(alloc)?)?;
    Ok(Items::from_vec(vec![in alloc; total, lock, bump]?))
}
