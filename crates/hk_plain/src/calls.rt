//! The calls, each handed to its row.

ghost use Rattle.std.specs.Prelude.{◌≡◌, IsTrue, IfOk, OnOk, OnErr, Some, ◌+◌, not};
ghost use Rattle.hk_model.specs.declared.calls.Reply.TheVariants.{Done};
ghost use Rattle.hk_model.specs.State.{process};
ghost use Rattle.hk_model.specs.Walking.{walk};
ghost use Rattle.hk_model.specs.Rule.{outcome, rule, answered, settled, counted};
ghost use Rattle.hk_model.specs.Processors.{may_step, code_found, entered_code, is_running};
ghost use Rattle.hk_plain.specs.Giving.{Gives};
ghost use Rattle.hk_plain.specs.Numbers.{HasNumbers, FewNumbers, TakesOne};
ghost use Rattle.hk_plain.specs.Changes.{IsWhole, call_saved};
ghost use Rattle.hk_plain.specs.Removing.{HasRoom, CallWent, IsUndone, saved_by};

use crate::removed::Removed;
use crate::tables::Tables;
use hk_calls::Stop;
use hk_model::{Acted, Answer, Call, Entry, Inc, NoMemory, Path, Proc, Reply};
use std::alloc::Global;

/// The reply that says an answer.
fn answered(answer: Answer) -> Reply
    ensures { result ≡ answered answer }
{
    match answer {
        Answer::Done => Reply::Done,
        Answer::Word(word) => Reply::Word(word),
        Answer::Waits => Reply::Waits,
    }
}

impl Tables {
    /// What a call does, before it is counted.
    fn serve(
        &mut self,
        alloc: Global,
        proc: Proc,
        inc: Inc,
        call: &Call,
        removed: &mut Removed,
    ) -> Result<Answer, Stop>
        requires numbers { HasNumbers self.old }
        requires room { HasRoom self.old removed.old }
        ensures gives { Gives self.old (outcome self.old proc inc call.now) result self.new }
        ensures went { OnOk result (CallWent self.old inc call.now self.new removed.old removed.new) }
        ensures none_went { OnErr result (removed.new ≡ removed.old) }
    {
        match call {
            Call::Get { of, at } => self.get(inc, of, *at),
            Call::Put { of, at, word } => self.put(inc, of, *at, *word),
            Call::Add { of, word } => self.add(inc, of, *word),
            Call::Length { of } => self.length(inc, of),
            Call::Load { from, into } => self.load(inc, from, *into),
            Call::Store { list, at, from } => self.store(inc, list, *at, *from),
            Call::Append { list, from } => self.append(alloc, inc, list, *from),
            Call::Erase { list, at } => self.erase(inc, list, *at),
            Call::Drop { slot } => self.drop_slot(inc, *slot),
            Call::Restrict { slot, keep } => self.restrict(inc, *slot, *keep),
            Call::Look { of } => self.look(inc, of),
            Call::MakeTemplate { of, making, into } => self.make_template(inc, of, making, *into),
            Call::Create { by, into } => self.create(alloc, inc, by, *into, removed),
            Call::Merge { with, cap, into } => self.merge_cap(inc, with, *cap, *into),
            Call::Copy { of, into } => self.copy(alloc, inc, of, *into, removed),
            Call::Enter {
                proc: path,
                args,
                into,
            } => self.enter(alloc, proc, inc, path, args, *into),
            Call::Leave { give } => self.leave(proc, inc, *give, removed),
            Call::P { of } => self.take_token(proc, inc, of),
            Call::V { of } => self.give_token(alloc, inc, of),
            Call::Yield => self.yield_up(proc),
        }
    }

    /// Makes a call: what nothing names then vanishes, where it is answered.
    fn settle(
        &mut self,
        alloc: Global,
        proc: Proc,
        inc: Inc,
        call: &Call,
        removed: &mut Removed,
    ) -> Result<Reply, NoMemory>
        requires numbers { HasNumbers self.old }
        requires room { HasRoom self.old removed.old }
        ensures reply { IfOk result (λ reply. settled self.old (outcome self.old proc inc call.now) ≡ (reply, counted (self.old.events + 1) self.new)) }
        ensures back { IfOk result (λ reply. IsUndone (saved_by reply (call_saved self.old proc inc call.now)) self.old self.new removed.old removed.new) }
        ensures numbers { OnOk result (TakesOne self.old self.new) }
        ensures err { OnErr result (self.new ≡ self.old) }
    {
        match self.serve(alloc, proc, inc, call, removed) {
            Ok(answer) => {
                self.remove_lost(removed);
                Ok(answered(answer))
            }
            Err(Stop::Refused(refusal)) => Ok(Reply::No(refusal)),
            Err(Stop::OutOfMemory) => Err(NoMemory),
        }
    }

    /// The code of the procedure that a path leads to.
    fn code_at(&self, inc: Inc, path: &Path) -> Option<u16>
        ensures { result ≡ code_found self.now (walk self.now inc path.now) }
    {
        match self.walk(inc, path) {
            Ok(Entry::Held(cap)) => match self.object(cap.name) {
                Some(object) => object.code,
                None => None,
            },
            _ => None,
        }
    }

    /// The code of the procedure that a call enters if it is answered Done.
    fn code_entered(&self, inc: Inc, call: &Call) -> Option<u16>
        ensures { result ≡ entered_code self.now inc call.now Done }
    {
        match call {
            Call::Enter { proc: path, .. } => self.code_at(inc, path),
            _ => None,
        }
    }

    /// Makes a call of a process in its current incarnation. It is one event, refused or not.
    #[tactic(auto, using(crate::proofs::WholeStays::rule_whole))]
    pub(crate) fn act(
        &mut self,
        alloc: Global,
        proc: Proc,
        call: &Call,
        removed: &mut Removed,
    ) -> Result<Acted, NoMemory>
        requires below { IsTrue (may_step self.old) }
        requires numbers { FewNumbers self.old }
        requires room { HasRoom self.old removed.old }
        ensures reply { IfOk result (λ acted. rule self.old proc call.now ≡ (acted.reply, self.new)) }
        ensures code { IfOk result (λ acted. acted.code ≡ entered_code self.old (process self.old proc).current call.now acted.reply) }
        ensures gone { IfOk result (λ acted. acted.gone ≡ not (is_running (process self.new proc).run)) }
        ensures back { IfOk result (λ acted. IsUndone (saved_by acted.reply (call_saved self.old proc (process self.old proc).current call.now)) self.old self.new removed.old removed.new) }
        ensures numbers { OnOk result (FewNumbers self.new) }
        ensures whole { OnOk result (IsWhole self.old → IsWhole self.new) }
        ensures err { OnErr result (self.new ≡ self.old) }
    {
        let inc = self.current_of(proc);
        let events = self.next_event();
        let code = self.code_entered(inc, call);
        let reply = self.settle(alloc, proc, inc, call, removed)?;
        self.set_events(events);
        Ok(Acted {
            reply,
            code: if reply == Reply::Done { code } else { None },
            gone: self.rests(proc),
        })
    }
}
