//! The calls, each handed to its row.

ghost use Rattle.std.specs.Prelude.{◌≡◌, ◌<◌, ◌^◌, true, not, length, IsTrue, IfOk, OnOk, OnErr};
ghost use Rattle.hk_model.specs.declared.calls.Reply.TheVariants.{Done};
ghost use Rattle.hk_model.specs.State.{process};
ghost use Rattle.hk_model.specs.Processors.{is_running, may_step, entered_code};
ghost use Rattle.hk_model.specs.Rule.{outcome, rule, answered};
ghost use Rattle.hk_table.specs.Drafts.{code_drafted};
ghost use Rattle.hk_table.specs.Giving.{Gives, WantsOnly, takes_memory};
ghost use Rattle.hk_table.specs.Joined.{FewNumbers};
ghost use Rattle.hk_table.specs.Rooms.{IsKnownRooted};
ghost use Rattle.hk_table.specs.Told.{AllNamedStand};

use crate::draft::Draft;
use crate::parts::Parts;
use hk_calls::Stop;
use hk_model::{Acted, Answer, Call, NoMemory, Proc, Reply};
use std::alloc::Global;

/// The reply that says an answer.
fn answered(answer: Answer) -> Reply
    ensures { result ≡ answered answer }
{
    match answer {
        Answer::Done => Reply::Done,
        Answer::Word(word) => Reply::Word(word),
        Answer::Waits => Reply::Waits,
    }
}

/// The code of the procedure that a call has entered: that of the draft, where the call is an Enter answered Done.
#[inline(always)]
fn code_entered(call: &Call, reply: &Reply, draft: &Draft) -> Option<u16>
    ensures { result ≡ code_drafted call.now reply.now draft.now.code }
{
    match (call, reply) {
        (Call::Enter { .. }, Reply::Done) => draft.code,
        _ => None,
    }
}

impl Parts {
    /// What a call of a process that runs does, before objects vanish and the event is counted. Only Add, Append, Copy and
    /// Enter may want memory. What `rooted` says, that names lead to each object, still holds where it is refused. Where an Enter
    /// is answered, the draft has the code that it enters.
    #[tactic(auto, using(crate::proofs::Wanting::wants_any))]
    fn serve(
        &mut self,
        alloc: Global,
        proc: Proc,
        call: &Call,
        draft: &mut Draft,
        rooted: &mut bool,
    ) -> Result<Answer, Stop>
        requires known { proc.0 < length self.old.processes }
        requires runs { is_running (process self.old proc).run ≡ true }
        requires named { AllNamedStand self.old }
        requires next_name { self.old.next_name.0 < 2 ^ 63 }
        requires next_inc { self.old.next_inc.0 < 2 ^ 63 }
        requires rooted { IsKnownRooted rooted.old self.old }
        ensures row { Gives self.old (outcome self.old proc (process self.old proc).current call.now) result self.new }
        ensures code { OnOk result (code_drafted call.now Done draft.new.code ≡ entered_code self.old (process self.old proc).current call.now Done) }
        ensures memory { WantsOnly call.now result }
        ensures rooted { OnErr result (IsKnownRooted rooted.new self.new) }
    {
        match call {
            Call::Get { of, at } => Ok(self.get(proc, of, *at)?),
            Call::Put { of, at, word } => Ok(self.put(proc, of, *at, *word)?),
            Call::Add { of, word } => self.add(proc, of, *word),
            Call::Length { of } => Ok(self.length(proc, of)?),
            Call::Load { from, into } => Ok(self.load(proc, from, *into)?),
            Call::Store { list, at, from } => Ok(self.store(proc, list, *at, *from)?),
            Call::Append { list, from } => self.append(proc, list, *from),
            Call::Erase { list, at } => Ok(self.erase(proc, list, *at)?),
            Call::Drop { slot } => Ok(self.drop_slot(proc, *slot)?),
            Call::Restrict { slot, keep } => Ok(self.restrict(proc, *slot, *keep)?),
            Call::Look { of } => Ok(self.look(proc, of)?),
            Call::MakeTemplate { of, making, into } => {
                Ok(self.make_template(proc, of, making, *into)?)
            }
            Call::Create { by, into } => Ok(self.create(alloc, proc, by, *into, rooted)?),
            Call::Merge { with, cap, into } => Ok(self.merge_cap(proc, with, *cap, *into)?),
            Call::Copy { of, into } => self.copy(alloc, proc, of, *into, rooted),
            Call::Enter {
                proc: path,
                args,
                into,
            } => self.enter(proc, path, args, *into, draft),
            Call::Leave { give } => Ok(self.leave(proc, *give)?),
            Call::P { of } => Ok(self.take_token(proc, of)?),
            Call::V { of } => Ok(self.give_token(proc, of)?),
            Call::Yield => Ok(self.yield_up(proc)),
        }
    }

    /// Makes a call of a process that runs: what nothing names then vanishes, where it is answered. It is one event, refused or
    /// not. NoMemory is want of memory of an Add, an Append, a Copy or an Enter, and changes nothing. A call of a procedure is put
    /// together in the draft, whatever stands there. Where `rooted` says that names lead to each object, that holds before and
    /// behind it.
    #[tactic(auto, using(crate::proofs::DraftLemmas::code_answered, crate::proofs::DraftLemmas::refused_drafts))]
    pub(crate) fn act(
        &mut self,
        alloc: Global,
        proc: Proc,
        call: &Call,
        draft: &mut Draft,
        rooted: &mut bool,
    ) -> Result<Acted, NoMemory>
        requires known { proc.0 < length self.old.processes }
        requires runs { is_running (process self.old proc).run ≡ true }
        requires below { IsTrue (may_step self.old) }
        requires named { AllNamedStand self.old }
        requires numbers { FewNumbers self.old }
        requires rooted { IsKnownRooted rooted.old self.old }
        ensures reply { IfOk result (λ acted. rule self.old proc call.now ≡ (acted.reply, self.new)) }
        ensures code { IfOk result (λ acted. acted.code ≡ entered_code self.old (process self.old proc).current call.now acted.reply) }
        ensures gone { IfOk result (λ acted. acted.gone ≡ not (is_running (process self.new proc).run)) }
        ensures numbers { OnOk result (FewNumbers self.new) }
        ensures memory { OnErr result (takes_memory call.now ≡ true) }
        ensures err { OnErr result (self.new ≡ self.old) }
        ensures rooted { IsKnownRooted rooted.new self.new }
    {
        let events = self.next_event();
        match self.serve(alloc, proc, call, draft, rooted) {
            Ok(answer) => {
                self.settle();
                *rooted = false;
                self.set_events(events);
                let reply = answered(answer);
                Ok(Acted {
                    reply,
                    code: code_entered(call, &reply, draft),
                    gone: self.rests(proc),
                })
            }
            Err(Stop::Refused(refusal)) => {
                self.set_events(events);
                Ok(Acted {
                    reply: Reply::No(refusal),
                    code: None,
                    gone: self.rests(proc),
                })
            }
            Err(Stop::OutOfMemory) => Err(NoMemory),
        }
    }
}
