//! What a book does for a processor that runs a process (`docs/TURNS.md`, "The desk").

ghost use Rattle.std.specs.Prelude.{◌≡◌, ◌<◌, None, Some, true};
ghost use Rattle.hk_model.specs.Control as control;
ghost use Rattle.hk_model.specs.Processors.{runner, may_step, running_on};
ghost use Rattle.hk_model.specs.Running.{context_of};
ghost use Rattle.hk_procs.specs.Promises.{AnswersCall};
ghost use Rattle.hk_shared.specs.Contexts.{machine_after};
ghost use Rattle.hk_shared.specs.Books.{IsSound, IsNext, notes_of_book};

use crate::book::{Book, noted};
use crate::naming::Naming;
use hk_model::{Cpu, Inc, Kernel, Line, Proc, Todo};
use hk_procs::{Called, Noted};
use hk_program::{Context, carry_out};
use std::alloc::Global;

impl<K: Kernel, J: Naming> Book<K, J> {
    /// Makes what is next for the process, and gives the note of it if there is one.
    pub(crate) fn call(
        &mut self,
        alloc: Global,
        cpu: Cpu,
        proc: Proc,
        context: Context,
        todo: Todo,
    ) -> (Option<Noted>, Called)
        requires sound { IsSound K.state J.world self.old }
        requires cpu { cpu.0 < 16 }
        requires runs { runner (K.state self.old.kernel) cpu ≡ Some proc }
        requires next { (todo, context) ≡ control.next J.world (context_of (machine_after J.world self.old.lines.items) proc) }
        ensures next { IsNext K.state J.world cpu self.old self.new result.0 }
        ensures answer { AnswersCall J.world K.wants cpu (notes_of_book self.old) (notes_of_book self.new) proc todo result.1 }
    {
        if self.stop.is_some() {
            return (None, Called::Stopped);
        }
        if self.kernel.limit_reached() {
            return (None, Called::Limit);
        }
        let Some((_, inc)) = self.kernel.current(cpu) else {
            unreachable!()
        };
        self.carry(alloc, cpu, proc, inc, context, todo)
    }

    /// Carries out what is next for the process.
    fn carry(
        &mut self,
        alloc: Global,
        cpu: Cpu,
        proc: Proc,
        inc: Inc,
        context: Context,
        todo: Todo,
    ) -> (Option<Noted>, Called)
        requires sound { IsSound K.state J.world self.old }
        requires cpu { cpu.0 < 16 }
        requires going { self.old.stop ≡ None }
        requires below { may_step (K.state self.old.kernel) ≡ true }
        requires runs { running_on (K.state self.old.kernel) cpu ≡ Some (proc, inc) }
        requires next { (todo, context) ≡ control.next J.world (context_of (machine_after J.world self.old.lines.items) proc) }
        ensures next { IsNext K.state J.world cpu self.old self.new result.0 }
        ensures answer { AnswersCall J.world K.wants cpu (notes_of_book self.old) (notes_of_book self.new) proc todo result.1 }
    {
        let mut context = context;
        let kernel = &mut self.kernel;
        let Ok(made) = carry_out(alloc, kernel, &mut context, &self.world, cpu, todo) else {
            self.stop = Some(cpu);
            return (Some(Noted::Stop(cpu)), Called::NoMemory);
        };
        let line = Line {
            cpu,
            proc,
            inc,
            what: made.what,
            reply: made.reply,
        };
        let note = noted(&line);
        self.lines.push_reserved(line);
        if made.gone {
            self.contexts[proc.0 as usize] = Some(context);
            return (Some(note), Called::Gone(made.reply));
        }
        (Some(note), Called::Goes(made.reply, context))
    }
}
