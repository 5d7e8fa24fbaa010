//! An event that can be taken back (`docs/RULES.md`, "Lines taken back").
//!
//! What it writes over is read before it, and there is room for all that can go by it, so that
//! nothing is left to want memory once it is made.

ghost use Rattle.std.specs.Prelude.{◌≡◌, ◌+◌, ◌<◌, [], Some, None, length, not, slice_get, true, IsTrue, IfOk, OnOk, OnErr, IfSome, IfNone};
ghost use Rattle.hk_model.specs.declared.names.Proc.{Proc};
ghost use Rattle.hk_model.specs.declared.calls.Reply.TheVariants.{Done};
ghost use Rattle.hk_model.specs.State.{process};
ghost use Rattle.hk_model.specs.Rule.{rule};
ghost use Rattle.hk_model.specs.Processors.{runner, may_step, is_running, dispatched, halted, entered_code};
ghost use Rattle.hk_plain.specs.Changes.{IsWhole};
ghost use Rattle.hk_plain.specs.Forward.{IsInverse, IsLaidOut, IsDispatchDone};
ghost use Rattle.hk_plain.specs.Removing.{HasRoom, IsFresh, saved_by};

use crate::changes::Saved;
use crate::inverse::Inverse;
use crate::removed::Removed;
use crate::saving::nothing;
use crate::tables::Tables;
use hk_model::{Acted, Call, Cpu, Entry, NoMemory, Proc, Reply, Template};
use std::alloc::Global;
use std::marker::PhantomData;

/// What a call has written over: nothing where it is refused.
fn saved_by(reply: Reply, saved: Saved) -> Saved
    ensures { result ≡ saved_by reply saved }
{
    let _ = PhantomData::<(Entry, Template)>; // Rattle is to know what a Saved holds
    match reply {
        Reply::Done | Reply::Word(_) | Reply::Waits => saved,
        Reply::No(_) => nothing(),
    }
}

/// What an event saved, with what went by it. The lists keep no more memory than they need, where
/// that can be had.
fn inverse_of(alloc: Global, saved: Saved, removed: Removed) -> Inverse
    ensures { result ≡ record { saved = saved; gone = removed.gone; left = removed.left } }
{
    match removed.into_kept() {
        Some(kept) => {
            let mut gone = kept.gone;
            let mut left = kept.left;
            gone.shrink_to_fit();
            left.shrink_to_fit();
            Inverse { saved, gone, left }
        }
        None => Inverse {
            saved,
            gone: Vec::new(alloc),
            left: Vec::new(alloc),
        },
    }
}

impl Tables {
    /// How many objects can go by one event, and how many incarnations.
    fn most_to_go(&self) -> (usize, usize)
        ensures objects { result.0 ≡ length self.now.objects + 1 }
        ensures incarnations { result.1 ≡ length self.now.incarnations }
        ensures laid_out { IsLaidOut self.now }
    {
        let _processes = self.processes.len();
        (self.objects.len() + 1, self.incarnations.len())
    }

    /// A place for all that can go by one event.
    fn place_to_keep(&self, alloc: Global) -> Result<Removed, NoMemory>
        ensures fresh { IfOk result (λ removed. IsFresh removed) }
        ensures room { IfOk result (λ removed. HasRoom self.now removed) }
        ensures laid_out { IsLaidOut self.now }
    {
        let (objects, incarnations) = self.most_to_go();
        Removed::with_room(alloc, objects, incarnations)
    }

    /// Makes a call of a process in its current incarnation so that it can be taken back.
    pub(crate) fn call_forward(
        &mut self,
        alloc: Global,
        proc: Proc,
        call: &Call,
    ) -> Result<(Acted, Inverse), NoMemory>
        requires below { IsTrue (may_step self.old) }
        requires whole { IsWhole self.old }
        ensures reply { IfOk result (λ r. rule self.old proc call.now ≡ (r.0.reply, self.new)) }
        ensures code { IfOk result (λ r. r.0.code ≡ entered_code self.old (process self.old proc).current call.now r.0.reply) }
        ensures gone { IfOk result (λ r. r.0.gone ≡ not (is_running (process self.new proc).run)) }
        ensures inverse { IfOk result (λ r. IsInverse r.1 self.old self.new) }
        ensures whole { OnOk result (IsWhole self.new) }
        ensures err { OnErr result (self.new ≡ self.old) }
    {
        let inc = self.current_of(proc);
        let saved = self.call_saved(proc, inc, call);
        let mut removed = self.place_to_keep(alloc)?;
        let acted = self.act(alloc, proc, call, &mut removed)?;
        let saved = saved_by(acted.reply, saved);
        Ok((acted, inverse_of(alloc, saved, removed)))
    }

    /// The process that is dispatched next.
    fn first_ready(&self) -> Option<Proc>
        ensures { result ≡ slice_get self.now.ready 0 }
    {
        match self.ready.front() {
            Some(first) => Some(*first),
            None => None,
        }
    }

    /// Gives the processor the first ready process so that it can be taken back.
    pub(crate) fn dispatch_forward(&mut self, alloc: Global, cpu: Cpu) -> Option<(Acted, Inverse)>
        requires cpu { cpu.0 < 16 }
        requires idle { runner self.old cpu ≡ None }
        requires below { IsTrue (may_step self.old) }
        requires whole { IsWhole self.old }
        ensures done { IfSome result (λ r. IsDispatchDone self.old cpu r.0 self.new) }
        ensures inverse { IfSome result (λ r. IsInverse r.1 self.old self.new) }
        ensures none { IfNone result (self.old.ready ≡ []) }
        ensures whole { IsWhole self.new }
    {
        let first = self.first_ready()?;
        let _many = self.most_to_go();
        let saved = self.dispatch_saved(first);
        let _proc = self.dispatch(cpu)?;
        let acted = Acted {
            reply: Reply::Done,
            code: None,
            gone: false,
        };
        Some((acted, inverse_of(alloc, saved, Removed::dropped())))
    }

    /// Ends a process so that it can be taken back.
    pub(crate) fn halt_forward(
        &mut self,
        alloc: Global,
        proc: Proc,
    ) -> Result<(Acted, Inverse), NoMemory>
        requires below { IsTrue (may_step self.old) }
        requires whole { IsWhole self.old }
        ensures state { OnOk result (self.new ≡ halted self.old proc) }
        ensures reply { IfOk result (λ r. r.0.reply ≡ Done) }
        ensures code { IfOk result (λ r. r.0.code ≡ None) }
        ensures gone { IfOk result (λ r. r.0.gone ≡ true) }
        ensures inverse { IfOk result (λ r. IsInverse r.1 self.old self.new) }
        ensures whole { OnOk result (IsWhole self.new) }
        ensures err { OnErr result (self.new ≡ self.old) }
    {
        let mut removed = self.place_to_keep(alloc)?;
        let saved = self.halt_saved(proc);
        self.halt(proc, &mut removed);
        let acted = Acted {
            reply: Reply::Done,
            code: None,
            gone: true,
        };
        Ok((acted, inverse_of(alloc, saved, removed)))
    }
}
