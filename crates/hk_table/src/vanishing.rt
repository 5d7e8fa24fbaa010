//! What vanishes, and the room that this makes (`docs/RULES.md`, "Objects that vanish").

ghost use Rattle.std.specs.Prelude.{◌≡◌, ◌≤◌, not, length, OnErr};
ghost use Rattle.hk_model.specs.Keeping.{restricted, rooted_objects};
ghost use Rattle.hk_model.specs.Rule.{has_room};
ghost use Rattle.hk_table.specs.Rooms.{MakesRoom, IsKnownRooted};

use crate::parts::Parts;
use crate::settling::{collect_and_forget, settle_and_forget};
use hk_model::{Refusal, What8};

impl Parts {
    /// The objects that nothing names vanish, one behind the other. It takes no memory.
    #[inline(always)]
    pub(crate) fn settle(&mut self)
        ensures { self.new ≡ restricted self.old }
    {
        let _stacks = self.stacks.as_slice(); // so that the check knows how the frames are numbered
        settle_and_forget(&mut self.objects, &mut self.counts, &mut self.walker);
    }

    /// The objects that no names lead to vanish.
    fn collect(&mut self)
        ensures { self.new ≡ record self.old { objects = rooted_objects self.old } }
    {
        let _stacks = self.stacks.as_slice(); // so that the check knows how the frames are numbered
        collect_and_forget(&mut self.objects, &mut self.counts, &mut self.walker);
    }

    /// Whether there is no room for one more object.
    fn is_full(&self) -> bool
        ensures full { result ≡ not (has_room self.now.objects) }
        ensures few { length self.now.objects ≤ 65536 }
    {
        let _next = self.objects.next_name(); // so that the check knows how many slots there are
        self.objects.is_full()
    }

    /// Room for one more object: in a full table the objects that no names lead to vanish. It takes no memory.
    ///
    /// `Full` where names lead to so many that there is none; then nothing changes, and `rooted` says that names lead to
    /// each of them. Where it says so before, they are not followed again.
    pub(crate) fn make_room(&mut self, rooted: &mut bool) -> Result<(), Refusal>
        requires rooted { IsKnownRooted rooted.old self.old }
        ensures room { MakesRoom self.old result self.new }
        ensures rooted { OnErr result (IsKnownRooted rooted.new self.new) }
    {
        if !self.is_full() {
            return Ok(());
        }
        let what = What8::Objects;
        if *rooted {
            return Err(Refusal::Full { what });
        }
        self.collect();
        if self.is_full() {
            *rooted = true;
            return Err(Refusal::Full { what });
        }
        Ok(())
    }
}
