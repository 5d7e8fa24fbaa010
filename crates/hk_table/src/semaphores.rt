//! The calls on semaphores, P and V, and Yield.

ghost use Rattle.std.specs.Prelude.{◌≡◌, ◌<◌, [], true, length};
ghost use Rattle.hk_model.specs.declared.calls.Answer.TheVariants.{Done};
ghost use Rattle.hk_model.specs.State.{object, process, put_object};
ghost use Rattle.hk_model.specs.Processors.{is_running};
ghost use Rattle.hk_model.specs.Rule.{take_token, give_token, token_given, yielded};
ghost use Rattle.hk_table.specs.Giving.{Answers};
ghost use Rattle.hk_table.specs.Woken.{Wakes, waited};

use crate::counting::{hold_name, release_name};
use crate::finding::slot_of;
use crate::parts::Parts;
use hk_calls::Wanted;
use hk_model::limits::TOKEN_LIMIT;
use hk_model::{Answer, Name, Path, Proc, ProcessState, Refusal, What8};
use hk_rights::Rights;

impl Parts {
    /// The tokens of a semaphore.
    fn count_of(&self, name: Name) -> u32
        ensures { result ≡ (object self.now name).count }
    {
        match slot_of(&self.objects, name) {
            Some(slot) => self.objects.count(slot),
            None => 0,
        }
    }

    /// Writes the number of tokens of a semaphore.
    fn set_count(&mut self, name: Name, count: u32)
        ensures { self.new ≡ put_object self.old name (record (object self.old name) { count = count }) }
    {
        if let Some(slot) = slot_of(&self.objects, name) {
            self.objects.set_count(slot, count);
        }
    }

    /// A process that runs waits at a semaphore, behind the others.
    fn wait(&mut self, proc: Proc, name: Name)
        requires { is_running (process self.old proc).run ≡ true }
        ensures { self.new ≡ waited self.old proc name }
    {
        match slot_of(&self.objects, name) {
            Some(slot) => {
                hold_name(&self.objects, &mut self.counts, name);
                self.queues.wait(slot.0, proc);
                self.processes.set_run(proc, ProcessState::Waiting(name));
            }
            None => self.processes.set_run(proc, ProcessState::Waiting(name)),
        }
    }

    /// P: a token is taken, or the process waits.
    #[tactic(auto, unfolding(hk_model::specs::Rule::take_token))]
    pub(crate) fn take_token(&mut self, proc: Proc, path: &Path) -> Result<Answer, Refusal>
        requires known { proc.0 < length self.old.processes }
        requires runs { is_running (process self.old proc).run ≡ true }
        ensures { Answers self.old (take_token self.old proc (process self.old proc).current path.now) result self.new }
    {
        let cap = self.target(proc, path, Wanted::Semaphores, Rights::MODIFY_A0)?;
        let count = self.count_of(cap.name);
        if count > 0 {
            self.set_count(cap.name, count - 1);
            return Ok(Answer::Done);
        }
        self.wait(proc, cap.name);
        Ok(Answer::Waits)
    }

    /// A token is kept at a semaphore where nobody waits.
    fn keep_token(&mut self, name: Name) -> Result<Answer, Refusal>
        ensures { Answers self.old (token_given self.old name (object self.old name) []) result self.new }
    {
        let count = self.count_of(name);
        if count >= TOKEN_LIMIT {
            let what = What8::Tokens;
            return Err(Refusal::Full { what });
        }
        self.set_count(name, count + 1);
        Ok(Answer::Done)
    }

    /// A token goes to the first who waits at a semaphore. False exactly where nobody waits; then nothing changes.
    fn wake(&mut self, name: Name) -> bool
        ensures { Wakes self.old name result self.new }
    {
        let Some(slot) = slot_of(&self.objects, name) else {
            return false;
        };
        match self.queues.first_waiting(slot.0) {
            Some(first) => {
                release_name(&self.objects, &mut self.counts, name);
                self.queues.wake(slot.0);
                self.queues.ready(first);
                self.processes.set_run(first, ProcessState::Ready);
                true
            }
            None => false,
        }
    }

    /// V: gives a token.
    #[tactic(auto, unfolding(hk_model::specs::Rule::give_token))]
    pub(crate) fn give_token(&mut self, proc: Proc, path: &Path) -> Result<Answer, Refusal>
        requires { proc.0 < length self.old.processes }
        ensures { Answers self.old (give_token self.old (process self.old proc).current path.now) result self.new }
    {
        let cap = self.target(proc, path, Wanted::Semaphores, Rights::MODIFY_A1)?;
        if self.wake(cap.name) {
            Ok(Answer::Done)
        } else {
            self.keep_token(cap.name)
        }
    }

    /// Yield: the process goes to the end of the ready list.
    pub(crate) fn yield_up(&mut self, proc: Proc) -> Answer
        requires { is_running (process self.old proc).run ≡ true }
        ensures answer { result ≡ Done }
        ensures state { self.new ≡ yielded self.old proc }
    {
        self.queues.ready(proc);
        self.processes.set_run(proc, ProcessState::Ready);
        Answer::Done
    }
}
