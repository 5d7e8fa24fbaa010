//! What an event writes over, read before it does (`docs/RULES.md`, "Lines taken back").

ghost use Rattle.std.specs.Prelude.{◌≡◌, Some, slice_get, slice_index_or, true};
ghost use Rattle.hk_model.specs.declared.objects.Object.{Object};
ghost use Rattle.hk_model.specs.declared.entries.Entry.TheVariants.{Empty};
ghost use Rattle.hk_model.specs.State.{object, incarnation, process};
ghost use Rattle.hk_model.specs.Targets.{target, is_general, is_listed, is_of_type, SEMAPHORE, PUTDATA+MODIFY, ADDDATA+MODIFY, STORE+MODIFY, APPEND+MODIFY, KILL+MODIFY, MODIFY+A0, MODIFY+A1};
ghost use Rattle.hk_plain.specs.declared.changes.Part.TheVariants.{Word, Item, NewWord, NewItem};
ghost use Rattle.hk_plain.specs.declared.changes.Turn.TheVariants.{Joined};
ghost use Rattle.hk_plain.specs.Changes.{call_saved, dispatch_saved, halt_saved, nothing_saved, part_saved, slot_saved, process_saved, leave_saved, wait_saved, token_saved, give_saved};

use crate::changes::{Part, Saved, Turn};
use crate::tables::Tables;
use hk_calls::Wanted;
use hk_model::{Call, Entry, Inc, Name, Path, Proc, Process, ProcessState, Slot, Template};
use hk_rights::Rights;
use std::marker::PhantomData;

/// Nothing is written over.
pub(crate) fn nothing() -> Saved
    ensures { result ≡ nothing_saved }
{
    Saved {
        part: None,
        slot: None,
        process: None,
        turn: Turn::Same,
        made: false,
        entered: false,
    }
}

/// A part of an object is.
fn part(name: Name, part: Part) -> Saved
    ensures { result ≡ record nothing_saved { part = Some (name, part) } }
{
    Saved {
        part: Some((name, part)),
        ..nothing()
    }
}

impl Tables {
    /// What a process does, and its current incarnation.
    fn process_of(&self, proc: Proc) -> Process
        ensures { result ≡ process self.now proc }
    {
        match self.processes.as_slice().get(proc.0 as usize) {
            Some(process) => *process,
            None => Process {
                run: ProcessState::Ended,
                current: Inc(0),
            },
        }
    }

    /// The word at an index of an object; 0 where there is none.
    fn word_at_or(&self, name: Name, at: u32) -> u32
        ensures { result ≡ slice_index_or (object self.now name).words at 0 }
    {
        match self.object(name) {
            Some(object) => match object.words.as_slice().get(at as usize) {
                Some(word) => *word,
                None => 0,
            },
            None => 0,
        }
    }

    /// The entry at an index of an object; Empty where there is none.
    fn entry_at_or(&self, name: Name, at: u32) -> Entry
        ensures { result ≡ slice_index_or (object self.now name).entries at Empty }
    {
        match self.object(name) {
            Some(object) => match object.entries.as_slice().get(at as usize) {
                Some(entry) => *entry,
                None => Entry::Empty,
            },
            None => Entry::Empty,
        }
    }

    /// What a slot holds.
    fn slot_saved(&self, inc: Inc, slot: Slot) -> Saved
        ensures { result ≡ slot_saved self.now inc slot }
    {
        let old = self.slot(inc, slot.0 as usize);
        Saved {
            slot: Some((inc, slot.0 as u32, old)),
            ..nothing()
        }
    }

    /// The process.
    fn process_saved(&self, proc: Proc) -> Saved
        ensures { result ≡ process_saved self.now proc }
    {
        Saved {
            process: Some((proc, self.process_of(proc))),
            ..nothing()
        }
    }

    /// Put: the word.
    fn put_saved(&self, inc: Inc, of: &Path, at: u32) -> Saved
        ensures { result ≡ part_saved self.now (target self.now inc of.now is_general PUTDATA+MODIFY) (λ (o : Object). Word at (slice_index_or o.words at 0)) }
    {
        match self.target(inc, of, Wanted::General, Rights::PUTDATA_MODIFY) {
            Ok(cap) => {
                let old = self.word_at_or(cap.name, at);
                part(cap.name, Part::Word { at, old })
            }
            Err(_refusal) => nothing(),
        }
    }

    /// Add: one word more.
    fn add_saved(&self, inc: Inc, of: &Path) -> Saved
        ensures { result ≡ part_saved self.now (target self.now inc of.now is_general ADDDATA+MODIFY) (λ (o : Object). NewWord) }
    {
        match self.target(inc, of, Wanted::General, Rights::ADDDATA_MODIFY) {
            Ok(cap) => part(cap.name, Part::NewWord),
            Err(_refusal) => nothing(),
        }
    }

    /// Store: the entry.
    fn store_saved(&self, inc: Inc, list: &Path, at: u32) -> Saved
        ensures { result ≡ part_saved self.now (target self.now inc list.now is_listed STORE+MODIFY) (λ (o : Object). Item at (slice_index_or o.entries at Empty)) }
    {
        match self.target(inc, list, Wanted::Listed, Rights::STORE_MODIFY) {
            Ok(cap) => {
                let old = self.entry_at_or(cap.name, at);
                part(cap.name, Part::Item { at, old })
            }
            Err(_refusal) => nothing(),
        }
    }

    /// Append: one entry more.
    fn append_saved(&self, inc: Inc, list: &Path) -> Saved
        ensures { result ≡ part_saved self.now (target self.now inc list.now is_listed APPEND+MODIFY) (λ (o : Object). NewItem) }
    {
        match self.target(inc, list, Wanted::Listed, Rights::APPEND_MODIFY) {
            Ok(cap) => part(cap.name, Part::NewItem),
            Err(_refusal) => nothing(),
        }
    }

    /// Erase: the entry.
    fn erase_saved(&self, inc: Inc, list: &Path, at: u32) -> Saved
        ensures { result ≡ part_saved self.now (target self.now inc list.now is_listed KILL+MODIFY) (λ (o : Object). Item at (slice_index_or o.entries at Empty)) }
    {
        match self.target(inc, list, Wanted::Listed, Rights::KILL_MODIFY) {
            Ok(cap) => {
                let old = self.entry_at_or(cap.name, at);
                part(cap.name, Part::Item { at, old })
            }
            Err(_refusal) => nothing(),
        }
    }

    /// Create and Copy: the slot, and that an object is made.
    fn make_saved(&self, inc: Inc, into: Slot) -> Saved
        ensures { result ≡ record (slot_saved self.now inc into) { made = true } }
    {
        Saved {
            made: true,
            ..self.slot_saved(inc, into)
        }
    }

    /// Enter: the process, and that an incarnation is entered.
    fn enter_saved(&self, proc: Proc) -> Saved
        ensures { result ≡ record (process_saved self.now proc) { entered = true } }
    {
        Saved {
            entered: true,
            ..self.process_saved(proc)
        }
    }

    /// Leave: the process, and the slot of the caller.
    fn leave_saved(&self, proc: Proc, inc: Inc) -> Saved
        ensures { result ≡ leave_saved self.now proc (incarnation self.now inc).caller (incarnation self.now inc).into }
    {
        let (caller, into) = self.return_place(inc);
        match caller {
            None => self.process_saved(proc),
            Some(caller) => Saved {
                process: Some((proc, self.process_of(proc))),
                ..self.slot_saved(caller, into)
            },
        }
    }

    /// P: the tokens, or that one more waits.
    fn wait_saved(&self, proc: Proc, inc: Inc, of: &Path) -> Saved
        ensures { result ≡ wait_saved self.now proc (target self.now inc of.now (is_of_type SEMAPHORE) MODIFY+A0) }
    {
        let Ok(cap) = self.target(inc, of, Wanted::Semaphores, Rights::MODIFY_A0) else {
            return nothing();
        };
        let old = self.count_of(cap.name);
        if old > 0 {
            return part(cap.name, Part::Tokens { old });
        }
        Saved {
            part: Some((cap.name, Part::NewWaiter)),
            ..self.process_saved(proc)
        }
    }

    /// The first who waits at a semaphore.
    fn first_waiting(&self, name: Name) -> Option<Proc>
        ensures { result ≡ slice_get (object self.now name).waiters 0 }
    {
        match self.object(name) {
            Some(object) => match object.waiters.as_slice().first() {
                Some(first) => Some(*first),
                None => None,
            },
            None => None,
        }
    }

    /// V: the tokens, or the first who waits.
    fn give_saved(&self, inc: Inc, of: &Path) -> Saved
        ensures { result ≡ give_saved self.now (target self.now inc of.now (is_of_type SEMAPHORE) MODIFY+A1) }
    {
        let Ok(cap) = self.target(inc, of, Wanted::Semaphores, Rights::MODIFY_A1) else {
            return nothing();
        };
        match self.first_waiting(cap.name) {
            None => {
                let old = self.count_of(cap.name);
                part(cap.name, Part::Tokens { old })
            }
            Some(first) => Saved {
                part: Some((cap.name, Part::FirstWaiter { first })),
                turn: Turn::Joined,
                ..self.process_saved(first)
            },
        }
    }

    /// Yield: the process, and that it joins the ready list.
    fn yield_saved(&self, proc: Proc) -> Saved
        ensures { result ≡ record (process_saved self.now proc) { turn = Joined } }
    {
        Saved {
            turn: Turn::Joined,
            ..self.process_saved(proc)
        }
    }

    /// What a call of a process in its current incarnation writes over, if it is answered.
    pub(crate) fn call_saved(&self, proc: Proc, inc: Inc, call: &Call) -> Saved
        ensures { result ≡ call_saved self.now proc inc call.now }
    {
        let _ = PhantomData::<Template>; // Rattle is to know what an Entry holds
        match call {
            Call::Get { .. } | Call::Length { .. } | Call::Look { .. } => nothing(),
            Call::Put { of, at, .. } => self.put_saved(inc, of, *at),
            Call::Add { of, .. } => self.add_saved(inc, of),
            Call::Load { into, .. } => self.slot_saved(inc, *into),
            Call::Store { list, at, .. } => self.store_saved(inc, list, *at),
            Call::Append { list, .. } => self.append_saved(inc, list),
            Call::Erase { list, at } => self.erase_saved(inc, list, *at),
            Call::Drop { slot } => self.slot_saved(inc, *slot),
            Call::Restrict { slot, .. } => self.slot_saved(inc, *slot),
            Call::MakeTemplate { into, .. } => self.slot_saved(inc, *into),
            Call::Create { into, .. } => self.make_saved(inc, *into),
            Call::Merge { into, .. } => self.slot_saved(inc, *into),
            Call::Copy { into, .. } => self.make_saved(inc, *into),
            Call::Enter { .. } => self.enter_saved(proc),
            Call::Leave { .. } => self.leave_saved(proc, inc),
            Call::P { of } => self.wait_saved(proc, inc, of),
            Call::V { of } => self.give_saved(inc, of),
            Call::Yield => self.yield_saved(proc),
        }
    }

    /// What a dispatch of the first ready process does.
    pub(crate) fn dispatch_saved(&self, first: Proc) -> Saved
        ensures { result ≡ dispatch_saved self.now first }
    {
        Saved {
            turn: Turn::Taken { first },
            ..self.process_saved(first)
        }
    }

    /// What a halt of a process writes over.
    pub(crate) fn halt_saved(&self, proc: Proc) -> Saved
        ensures { result ≡ halt_saved self.now proc }
    {
        self.process_saved(proc)
    }
}
