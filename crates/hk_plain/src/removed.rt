//! What becomes of the objects and incarnations that go (`docs/RULES.md`, "Lines taken back").

ghost use Rattle.std.specs.Prelude.{◌≡◌, ◌≤◌, [], false, IfOk};
ghost use Rattle.hk_plain.specs.Kept.{removal};
ghost use Rattle.hk_plain.specs.Removing.{IsFresh, HasObjectsRoom, HasIncarnationsRoom, with_object, with_incarnation};

use hk_model::{Inc, Incarnation, Name, NoMemory, Object};
use std::alloc::Global;
use std::marker::Model;

/// What went, in the order in which it went.
#[derive(Drop)]
pub(crate) struct Kept {
    pub(crate) gone: Vec<(Name, Object)>,
    pub(crate) left: Vec<(Inc, Incarnation)>,
}

/// What becomes of the objects and incarnations that go: they are kept, or dropped.
#[derive(Drop)]
pub(crate) struct Removed {
    kept: Option<Kept>,
}

impl Model for Removed {
    ghost use Rattle.hk_plain.specs.Removing.{Removal};
    ghost use Rattle.hk_plain.specs.Kept.{removal};

    ghost Value = { Removal };

    ghost view = { λ r. removal r.kept };
}

impl Removed {
    /// Nothing is kept.
    pub(crate) fn dropped() -> Removed
        ensures keeps { result.keeps ≡ false }
        ensures gone { result.gone ≡ [] }
        ensures left { result.left ≡ [] }
    {
        Removed { kept: None }
    }

    /// All is kept, with room for so many objects and incarnations.
    pub(crate) fn with_room(
        alloc: Global,
        objects: usize,
        incarnations: usize,
    ) -> Result<Removed, NoMemory>
        ensures fresh { IfOk result (λ r. IsFresh r) }
        ensures objects { IfOk result (λ r. objects ≤ r.objects_room) }
        ensures incarnations { IfOk result (λ r. incarnations ≤ r.incarnations_room) }
    {
        let gone = Vec::with_capacity(alloc, objects)?;
        let left = Vec::with_capacity(alloc, incarnations)?;
        Ok(Removed {
            kept: Some(Kept { gone, left }),
        })
    }

    /// An object went.
    pub(crate) fn add_object(&mut self, name: Name, object: Object)
        requires { HasObjectsRoom self.old 1 }
        ensures { self.new ≡ with_object self.old name object }
    {
        if let Some(kept) = &mut self.kept {
            kept.gone.push_reserved((name, object));
        }
    }

    /// An incarnation went.
    pub(crate) fn add_incarnation(&mut self, inc: Inc, incarnation: Incarnation)
        requires { HasIncarnationsRoom self.old 1 }
        ensures { self.new ≡ with_incarnation self.old inc incarnation }
    {
        if let Some(kept) = &mut self.kept {
            kept.left.push_reserved((inc, incarnation));
        }
    }

    /// The lists of what went, where it was kept.
    pub(crate) fn into_kept(self) -> Option<Kept>
        ensures { self ≡ removal result }
    {
        self.kept
    }
}
