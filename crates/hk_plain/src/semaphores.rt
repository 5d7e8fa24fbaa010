//! The calls on semaphores, P and V, and Yield.

ghost use Rattle.std.specs.Prelude.{◌≡◌, [], ◌∷◌, ◌++◌, Ok, OnOk, OnErr, IfOk, MatchOption};
ghost use Rattle.hk_model.specs.declared.calls.Answer.TheVariants.{Done};
ghost use Rattle.hk_model.specs.State.{object, put_object};
ghost use Rattle.hk_model.specs.Rule.{take_token, give_token, token_given, yielded};
ghost use Rattle.hk_plain.specs.Giving.{Gives};

use crate::tables::Tables;
use hk_calls::{Stop, Wanted};
use hk_model::limits::TOKEN_LIMIT;
use hk_model::{Answer, Inc, Items, Name, NoMemory, Path, Proc, ProcessState, Refusal, What8};
use hk_rights::Rights;
use std::alloc::{AllocError, Global};

/// The first of some processes and the others, or None where there is none.
fn first_and_others(
    alloc: Global,
    procs: &[Proc],
) -> Result<Option<(Proc, Items<Proc>)>, AllocError>
    ensures { IfOk result (λ o. MatchOption o (procs.now ≡ []) (λ p. procs.now ≡ p.0 ∷ p.1)) }
{
    match procs.split_first() {
        None => Ok(None),
        Some((first, others)) => {
            let others = Vec::from_slice(alloc, others)?;
            Ok(Some((*first, Items::from_vec(others))))
        }
    }
}

impl Tables {
    /// The tokens of a semaphore.
    pub(crate) fn count_of(&self, name: Name) -> u32
        ensures { result ≡ (object self.now name).count }
    {
        match self.object(name) {
            Some(object) => object.count,
            None => 0,
        }
    }

    /// The first who waits at a semaphore and the others, or None where nobody waits.
    fn waiting(&self, alloc: Global, name: Name) -> Result<Option<(Proc, Items<Proc>)>, AllocError>
        ensures { IfOk result (λ o. let waiters = (object self.now name).waiters in MatchOption o (waiters ≡ []) (λ p. waiters ≡ p.0 ∷ p.1)) }
    {
        match self.object(name) {
            Some(object) => first_and_others(alloc, object.waiters.as_slice()),
            None => Ok(None),
        }
    }

    /// Writes the number of tokens of a semaphore.
    #[tactic(auto, using(crate::proofs::Maps::set_value_absent))]
    pub(crate) fn set_count(&mut self, name: Name, count: u32)
        ensures { self.new ≡ put_object self.old name (record (object self.old name) { count = count }) }
    {
        if let Some(object) = self.objects.get_mut(&name) {
            object.count = count;
        }
    }

    /// Writes who waits at a semaphore.
    #[tactic(auto, using(crate::proofs::Maps::set_value_absent))]
    pub(crate) fn set_waiters(&mut self, name: Name, waiters: Items<Proc>)
        ensures { self.new ≡ put_object self.old name (record (object self.old name) { waiters = waiters }) }
    {
        if let Some(object) = self.objects.get_mut(&name) {
            object.waiters = waiters;
        }
    }

    /// One more waits at a semaphore, behind the others.
    #[tactic(auto, using(crate::proofs::Maps::set_value_absent, crate::proofs::Maps::set_value_same))]
    fn push_waiter(&mut self, name: Name, proc: Proc) -> Result<(), NoMemory>
        ensures ok { OnOk result (self.new ≡ put_object self.old name (record (object self.old name) { waiters = (object self.old name).waiters ++ proc ∷ [] })) }
        ensures err { OnErr result (self.new ≡ self.old) }
    {
        if let Some(object) = self.objects.get_mut(&name) {
            object.waiters.push(proc)?;
        }
        Ok(())
    }

    /// P: a token is taken, or the process waits.
    #[tactic(auto, unfolding(hk_model::specs::Rule::take_token))]
    pub(crate) fn take_token(&mut self, proc: Proc, inc: Inc, path: &Path) -> Result<Answer, Stop>
        ensures { Gives self.old (take_token self.old proc inc path.now) result self.new }
    {
        let cap = self.target(inc, path, Wanted::Semaphores, Rights::MODIFY_A0)?;
        let count = self.count_of(cap.name);
        if count > 0 {
            self.set_count(cap.name, count - 1);
            return Ok(Answer::Done);
        }
        self.push_waiter(cap.name, proc)?;
        self.set_run(proc, ProcessState::Waiting(cap.name));
        Ok(Answer::Waits)
    }

    /// A token is kept at a semaphore where nobody waits.
    fn keep_token(&mut self, name: Name) -> Result<Answer, Stop>
        ensures { Gives self.old (token_given self.old name (object self.old name) []) result self.new }
    {
        let count = self.count_of(name);
        if count >= TOKEN_LIMIT {
            let what = What8::Tokens;
            return Err(Stop::Refused(Refusal::Full { what }));
        }
        self.set_count(name, count + 1);
        Ok(Answer::Done)
    }

    /// A token goes to the first who waits at a semaphore.
    fn wake(&mut self, name: Name, first: Proc, others: Items<Proc>) -> Result<Answer, Stop>
        ensures { Gives self.old (token_given self.old name (object self.old name) (first ∷ others)) result self.new }
    {
        self.push_ready(first)?;
        self.set_waiters(name, others);
        self.set_run(first, ProcessState::Ready);
        Ok(Answer::Done)
    }

    /// V: gives a token.
    #[tactic(auto, unfolding(hk_model::specs::Rule::give_token))]
    pub(crate) fn give_token(
        &mut self,
        alloc: Global,
        inc: Inc,
        path: &Path,
    ) -> Result<Answer, Stop>
        ensures { Gives self.old (give_token self.old inc path.now) result self.new }
    {
        let cap = self.target(inc, path, Wanted::Semaphores, Rights::MODIFY_A1)?;
        match self.waiting(alloc, cap.name)? {
            None => self.keep_token(cap.name),
            Some((first, others)) => self.wake(cap.name, first, others),
        }
    }

    /// Yield: the process goes to the end of the ready list.
    pub(crate) fn yield_up(&mut self, proc: Proc) -> Result<Answer, Stop>
        ensures { Gives self.old (Ok (Done, yielded self.old proc)) result self.new }
    {
        self.push_ready(proc)?;
        self.set_run(proc, ProcessState::Ready);
        Ok(Answer::Done)
    }
}
