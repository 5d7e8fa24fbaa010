//! A kernel shared by processors: how it is made, and what is left of it
//! (`docs/TURNS.md`, "The shared kernel").

ghost use Rattle.std.specs.Prelude.{◌≡◌, ◌≤◌, [], ◌∷◌, length, map, IfOk, Some};
ghost use Rattle.hk_model.specs.declared.world.Task.{Task};
ghost use Rattle.hk_model.specs.Control.{Context, new_frame};
ghost use Rattle.hk_model.specs.Opening.{opening};
ghost use Rattle.hk_turn.specs.Turns.{seat_count, ArePassesOf, AreNewPasses, StandsForAll};
ghost use Rattle.hk_procs.specs.Notes.{owner_of};
ghost use Rattle.hk_shared.specs.Books.{IsBookOf};

use crate::book::Book;
use crate::boxed::BoxedBook;
use crate::naming::Naming;
use hk_model::{Kernel, NoMemory, Task, World};
use hk_procs::Noted;
use hk_program::{Context, beginnings};
use hk_turn::{Pass, Turns};
use std::alloc::Global;
use std::marker::PhantomData;

/// A kernel that processors share by reference, each with a pass.
///
/// It implements `Desk` of `hk_procs`. `docs/TURNS.md`, "The shared kernel".
#[derive(Drop)]
pub struct Shared<K: Kernel, J: Naming> {
    pub(crate) turns: Turns<BoxedBook<K, J>>,
}

impl<K: Kernel, J: Naming> Shared<K, J> {
    /// Shares a kernel that has opened the world, and gives a pass for each of so many processors,
    /// 1 to 16. The world is the one that `J` names.
    ///
    /// The passes are numbered from 0 in the order of the list, and have seen nothing. NoMemory is
    /// want of memory, and drops the kernel. `docs/TURNS.md`, "The shared kernel".
    pub fn start(
        alloc: Global,
        kernel: K,
        world: &World,
        cpus: u8,
    ) -> Result<(Shared<K, J>, Vec<Pass<Noted>>), NoMemory>
        requires cpus { (1 ≤ cpus) × (cpus ≤ 16) }
        requires world { world.now ≡ J.world }
        requires opening { K.state kernel ≡ opening world.now }
        ensures seats { IfOk result (λ made. seat_count made.0.turns ≡ cpus) }
        ensures count { IfOk result (λ made. length made.1.items ≡ cpus) }
        ensures passes { IfOk result (λ made. AreNewPasses made.0.turns 0 made.1.items) }
    {
        let book = Box::new(alloc, opened(alloc, kernel, world)?)?;
        let book = BoxedBook { book };
        let Ok((turns, passes)) = Turns::new(alloc, book, u16::from(cpus)) else {
            return Err(NoMemory);
        };
        Ok((Shared { turns }, passes))
    }

    /// The book, once all passes are back.
    ///
    /// It stands for one history: each pass had seen a beginning of it, and its notes are of
    /// processors below their number. `docs/TURNS.md`, "The shared kernel".
    pub fn close(self, passes: Vec<Pass<Noted>>) -> Book<K, J>
        requires count { length passes.items ≡ seat_count self.turns }
        requires own { ArePassesOf self.turns passes.items }
        ensures { StandsForAll (IsBookOf K.state J.world) owner_of (seat_count self.turns) passes.items result }
    {
        let Shared { turns } = self;
        Box::into_inner(turns.close(passes).book)
    }
}

/// The book of a kernel that has opened the world, with room for as many lines as the limit.
fn opened<K: Kernel, J: Naming>(
    alloc: Global,
    kernel: K,
    world: &World,
) -> Result<Book<K, J>, NoMemory>
    requires world { world.now ≡ J.world }
    requires opening { K.state kernel ≡ opening world.now }
    ensures { IfOk result (λ book. IsBookOf K.state J.world book []) }
{
    let lines = Vec::with_capacity(alloc, world.limit() as usize)?;
    let contexts = places(alloc, world.tasks())?;
    let world = world.copy(alloc)?;
    Ok(Book {
        world,
        kernel,
        lines,
        contexts,
        stop: None,
        of: PhantomData,
    })
}

/// A place for each process, with its context as it begins.
fn places(alloc: Global, tasks: &[Task]) -> Result<Vec<Option<Context>>, NoMemory>
    ensures { IfOk result (λ contexts. contexts.items ≡ map (λ (t : Task). Some (new_frame t.code ∷ [])) tasks.now) }
{
    let contexts = beginnings(alloc, tasks)?;
    let mut places = Vec::with_capacity(alloc, contexts.len())?;
    for context in contexts {
        places.push(Some(context))?;
    }
    Ok(places)
}
