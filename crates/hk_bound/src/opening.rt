//! What a world opens with (`docs/RULES.md`, "The opening").

ghost use Rattle.std.specs.Prelude.{◌≡◌, MatchOption};
ghost use Rattle.hk_model.specs.WorldValue.{IsWorld};
ghost use Rattle.hk_model.specs.Targets.{is_general, is_listed};
ghost use Rattle.hk_bound.specs.Taking.{type_of};
ghost use Rattle.hk_bound.specs.Columns.{name_at, object_count, opening_entries, opening_params, opening_object};
ghost use Rattle.hk_model.specs.State.{no_object};
ghost use Rattle.hk_model.specs.Opening.{object_of};

use hk_model::{Born, Entry, Kind, Name, Param, World};

/// How many kernel types there are: the first name of the script's objects.
const KERNEL_TYPES: usize = 7;

/// How many objects the world opens with, the kernel types among them.
pub(crate) fn object_count(world: &World) -> usize
    ensures value { result ≡ object_count world.now }
    ensures valid { IsWorld world.now }
{
    KERNEL_TYPES + world.objects().len()
}

/// The object of the script that has this name.
fn born(world: &World, name: usize) -> Option<&Born>
    ensures { MatchOption result
        (opening_object world.now name ≡ no_object)
        (λ b. opening_object world.now name ≡ object_of b.now.kind) }
{
    if name < KERNEL_TYPES {
        None
    } else {
        world.objects().get(name - KERNEL_TYPES)
    }
}

/// The type of an object of the opening.
pub(crate) fn type_of(world: &World, name: usize) -> Name
    ensures { result ≡ type_of world.now (name_at name) }
{
    match born(world, name) {
        None => Name(0),
        Some(born) => match &born.kind {
            Kind::TypeObject => Name(0),
            Kind::Plain { of, .. } => *of,
            Kind::Semaphore { .. } => Name(3),
            Kind::Procedure { .. } => Name(4),
        },
    }
}

/// What the list of an object holds at the opening.
pub(crate) fn entries_of(world: &World, name: usize) -> &[Entry]
    ensures { result.now ≡ opening_entries world.now name }
{
    match born(world, name) {
        None => &[],
        Some(born) => match &born.kind {
            Kind::Plain { entries, .. } => entries.as_slice(),
            Kind::Procedure { entries, .. } => entries.as_slice(),
            Kind::TypeObject => &[],
            Kind::Semaphore { .. } => &[],
        },
    }
}

/// The parameter templates of an object, which is a procedure where it has any.
pub(crate) fn params_of(world: &World, name: usize) -> &[Param]
    ensures { result.now ≡ opening_params world.now name }
{
    match born(world, name) {
        None => &[],
        Some(born) => match &born.kind {
            Kind::Procedure { params, .. } => params.as_slice(),
            Kind::TypeObject => &[],
            Kind::Plain { .. } => &[],
            Kind::Semaphore { .. } => &[],
        },
    }
}

/// Whether objects of a type have words: those of DATA, of UNIVERSAL and of each type that is no
/// kernel type.
pub(crate) fn is_general(of: Name) -> bool
    ensures { result ≡ is_general of }
{
    of.0 == 1 || of.0 == 2 || of.0 > 6
}

/// Whether programs may put entries into objects of a type: of UNIVERSAL, of PROCEDURE and of each
/// type that is no kernel type.
pub(crate) fn is_listed(of: Name) -> bool
    ensures { result ≡ is_listed of }
{
    of.0 == 2 || of.0 == 4 || of.0 > 6
}
