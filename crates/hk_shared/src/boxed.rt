//! The book as it goes from hand to hand (`docs/TURNS.md`, "The shared kernel").

ghost use Rattle.std.specs.Prelude.{◌≡◌, ◌<◌, Some, None};
ghost use Rattle.hk_model.specs.Control as control;
ghost use Rattle.hk_model.specs.Processors.{runner};
ghost use Rattle.hk_model.specs.Running.{context_of};
ghost use Rattle.hk_procs.specs.Promises.{AnswersAsk, AnswersCall};
ghost use Rattle.hk_shared.specs.Contexts.{machine_after};
ghost use Rattle.hk_shared.specs.Books.{IsSound, IsNext, notes_of_book};

use crate::book::Book;
use crate::naming::Naming;
use hk_model::{Cpu, Kernel, Proc, Todo};
use hk_procs::{Asked, Called, Noted};
use hk_program::Context;
use hk_turn::Story;
use std::alloc::Global;

/// A book that stays in its place, so that a turn moves only where it is.
///
/// It stands for what its book stands for. `docs/TURNS.md`, "The shared kernel".
#[derive(Drop)]
pub struct BoxedBook<K: Kernel, J: Naming> {
    pub(crate) book: Box<Book<K, J>>,
}

impl<K: Kernel, J: Naming> Story for BoxedBook<K, J> {
    ghost use Rattle.hk_shared.specs.Books.{IsBoxedBookOf};
    ghost use Rattle.hk_procs.specs.Notes.{owner_of};

    type Entry = Noted;

    ghost stands = { IsBoxedBookOf K.state J.world };

    ghost owner = { owner_of };
}

impl<K: Kernel, J: Naming> BoxedBook<K, J> {
    /// Asks for a process for the processor, and gives the note of its dispatch if there is one.
    pub(crate) fn ask(&mut self, cpu: Cpu) -> (Option<Noted>, Asked)
        requires sound { IsSound K.state J.world self.old.book.value }
        requires cpu { cpu.0 < 16 }
        requires idle { runner (K.state self.old.book.value.kernel) cpu ≡ None }
        ensures next { IsNext K.state J.world cpu self.old.book.value self.new.book.value result.0 }
        ensures answer { AnswersAsk J.world cpu (notes_of_book self.old.book.value) (notes_of_book self.new.book.value) result.1 }
    {
        self.book.ask(cpu)
    }

    /// Makes what is next for the process, and gives the note of it if there is one.
    pub(crate) fn call(
        &mut self,
        alloc: Global,
        cpu: Cpu,
        proc: Proc,
        context: Context,
        todo: Todo,
    ) -> (Option<Noted>, Called)
        requires sound { IsSound K.state J.world self.old.book.value }
        requires cpu { cpu.0 < 16 }
        requires runs { runner (K.state self.old.book.value.kernel) cpu ≡ Some proc }
        requires next { (todo, context) ≡ control.next J.world (context_of (machine_after J.world self.old.book.value.lines.items) proc) }
        ensures next { IsNext K.state J.world cpu self.old.book.value self.new.book.value result.0 }
        ensures answer { AnswersCall J.world K.wants cpu (notes_of_book self.old.book.value) (notes_of_book self.new.book.value) proc todo result.1 }
    {
        self.book.call(alloc, cpu, proc, context, todo)
    }
}
