//! One more object in the slots.

ghost use Rattle.std.specs.Prelude.{◌≡◌, ◌<◌, ◌^◌, true, length};
ghost use Rattle.hk_model.specs.declared.entries.Entry.TheVariants.{Held};
ghost use Rattle.hk_model.specs.State.{process, put_slot};
ghost use Rattle.hk_model.specs.Rule.{add_beside, has_room, plain_object};
ghost use Rattle.hk_table.specs.Told.{AllNamedStand};

use crate::born::make;
use crate::counting::{hold_entries_inside, hold_name_inside, release_entry, release_name};
use crate::objects::NewObject;
use crate::parts::Parts;
use hk_model::{Cap, Entry, Proc, Slot};
use hk_rights::Rights;

impl Parts {
    /// One more object, where there is room, and a capability for it in a slot of the current incarnation of a process.
    /// The object takes the next name, and no memory. It is counted as it is made, since the capability names it.
    pub(crate) fn make(&mut self, proc: Proc, at: usize, new: NewObject, rights: Rights)
        requires known { proc.0 < length self.old.processes }
        requires at { at < 256 }
        requires room { has_room self.old.objects ≡ true }
        requires next { self.old.next_name.0 < 2 ^ 63 }
        requires named { AllNamedStand self.old }
        ensures { self.new ≡ put_slot (add_beside self.old self.old.objects (plain_object new.of new.words new.entries)) (process self.old proc).current at (Held (record { name = self.old.next_name; rights = rights })) }
    {
        let name = self.objects.next_name();
        let of = new.of;
        let _few = new.entries.as_slice(); // so that the check knows how many there are
        let _stacks = self.stacks.as_slice(); // and how the frames are numbered
        let slot = make(&mut self.objects, of, new.words, new.entries);
        self.counts.hold_outside(slot);
        hold_name_inside(&self.objects, &mut self.counts, of);
        hold_entries_inside(&self.objects, &mut self.counts, self.objects.entries(slot));
        match self.stacks.at_top(proc, at) {
            Some(old) => {
                release_entry(&self.objects, &mut self.counts, &old);
                let cap = Entry::Held(Cap { name, rights });
                self.stacks.set_top(proc, Slot(at as u8), cap);
            }
            None => release_name(&self.objects, &mut self.counts, name), // nothing names it
        }
    }
}
