//! What a book does for a processor that runs nothing (`docs/TURNS.md`, "The desk").

ghost use Rattle.std.specs.Prelude.{◌≡◌, ◌<◌, ◌||◌, not, None, false};
ghost use Rattle.hk_model.specs.Processors.{runner, may_step, is_over};
ghost use Rattle.hk_procs.specs.Promises.{AnswersAsk};
ghost use Rattle.hk_shared.specs.Books.{IsSound, IsNext, notes_of_book};

use crate::book::{Book, noted};
use crate::naming::Naming;
use hk_model::{Cpu, Kernel, Line, Reply, What};
use hk_procs::{Asked, Noted};

impl<K: Kernel, J: Naming> Book<K, J> {
    /// Asks for a process for the processor, and gives the note of its dispatch if there is one.
    pub(crate) fn ask(&mut self, cpu: Cpu) -> (Option<Noted>, Asked)
        requires sound { IsSound K.state J.world self.old }
        requires cpu { cpu.0 < 16 }
        requires idle { runner (K.state self.old.kernel) cpu ≡ None }
        ensures next { IsNext K.state J.world cpu self.old self.new result.0 }
        ensures answer { AnswersAsk J.world cpu (notes_of_book self.old) (notes_of_book self.new) result.1 }
    {
        if self.stop.is_some() {
            return (None, Asked::Stopped);
        }
        if self.is_over() {
            return (None, Asked::Over);
        }
        self.dispatch(cpu)
    }

    /// Whether the limit is reached, or no process is ready and none runs.
    fn is_over(&self) -> bool
        ensures { result ≡ (not (may_step (K.state self.now.kernel)) || is_over (K.state self.now.kernel)) }
    {
        self.kernel.limit_reached() || self.kernel.over()
    }

    /// Gives the processor the first ready process, if there is one.
    fn dispatch(&mut self, cpu: Cpu) -> (Option<Noted>, Asked)
        requires sound { IsSound K.state J.world self.old }
        requires cpu { cpu.0 < 16 }
        requires idle { runner (K.state self.old.kernel) cpu ≡ None }
        requires going { self.old.stop ≡ None }
        requires goes { (not (may_step (K.state self.old.kernel)) || is_over (K.state self.old.kernel)) ≡ false }
        ensures next { IsNext K.state J.world cpu self.old self.new result.0 }
        ensures answer { AnswersAsk J.world cpu (notes_of_book self.old) (notes_of_book self.new) result.1 }
    {
        let Some(proc) = self.kernel.dispatch(cpu) else {
            return (None, Asked::Idle(self.lines.len() as u64));
        };
        let Some((_, inc)) = self.kernel.current(cpu) else {
            unreachable!()
        };
        let line = Line {
            cpu,
            proc,
            inc,
            what: What::Dispatch,
            reply: Reply::Done,
        };
        let Some(context) = self.contexts[proc.0 as usize].take() else {
            unreachable!()
        };
        let note = noted(&line);
        self.lines.push_reserved(line);
        (Some(note), Asked::Given(proc, context))
    }
}
