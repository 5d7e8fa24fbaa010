//! The incarnations of calls: how many a process has, one more, and one that goes.

ghost use Rattle.std.specs.Prelude.{◌≡◌, length, OnOk, OnErr};
ghost use Rattle.std.specs.Map.{lookup, remove_entry};
ghost use Rattle.hk_model.specs.State.{incarnation, same_inc};
ghost use Rattle.hk_model.specs.Rule.{depth, enter};
ghost use Rattle.hk_plain.specs.Numbers.{HasNumbers};
ghost use Rattle.hk_plain.specs.Removing.{HasIncarnationsRoom, removed_at};

use crate::removed::Removed;
use crate::tables::Tables;
use hk_model::{Inc, Incarnation, NoMemory, Proc, Slot};
use std::alloc::Global;

impl Tables {
    /// How many incarnations a process has.
    pub(crate) fn depth(&self, proc: Proc) -> usize
        ensures { result ≡ depth self.now proc }
    {
        self.incarnations.depth(proc)
    }

    /// One more incarnation, which is the current one of its process.
    pub(crate) fn add_incarnation(
        &mut self,
        alloc: Global,
        new: Incarnation,
    ) -> Result<(), NoMemory>
        requires { HasNumbers self.old }
        ensures ok { OnOk result (self.new ≡ enter self.old new) }
        ensures err { OnErr result (self.new ≡ self.old) }
    {
        let proc = new.proc;
        let inc = self.incarnations.next();
        self.incarnations.add(alloc, new, &mut self.counts)?;
        self.set_current(proc, inc);
        Ok(())
    }

    /// The incarnation goes.
    pub(crate) fn remove_incarnation(&mut self, inc: Inc, removed: &mut Removed)
        requires { HasIncarnationsRoom removed.old (length self.old.incarnations) }
        ensures value { self.new ≡ record self.old { incarnations = remove_entry (same_inc inc) self.old.incarnations } }
        ensures went { removed.new ≡ removed_at removed.old inc (lookup (same_inc inc) self.old.incarnations) }
    {
        self.incarnations.remove(inc, &mut self.counts, removed);
    }

    /// Who called the incarnation, and the slot there that takes what it returns.
    pub(crate) fn return_place(&self, inc: Inc) -> (Option<Inc>, Slot)
        ensures { result ≡ ((incarnation self.now inc).caller, (incarnation self.now inc).into) }
    {
        match self.incarnations.get(inc) {
            Some(incarnation) => (incarnation.caller, incarnation.into),
            None => (None, Slot(0)),
        }
    }
}
