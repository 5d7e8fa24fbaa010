//! What vanishes from the slots, by the counts of who names what (`docs/RULES.md`, "Objects that vanish").

ghost use Rattle.std.specs.Prelude.{◌≡◌, ◌↔◌, [], List, IsTrue, cond};
ghost use Rattle.hk_model.specs.declared.names.Proc.{Proc};
ghost use Rattle.hk_model.specs.declared.objects.Process.{Process};
ghost use Rattle.hk_model.specs.State.{State};
ghost use Rattle.hk_model.specs.Keeping.{kept_objects, rooted_objects};
ghost use Rattle.hk_objects.specs.Slots.{standing};
ghost use Rattle.hk_queues.specs.Queued.{Queued};
ghost use Rattle.hk_reclaim.specs.Kept.{HasLost, only};
ghost use Rattle.hk_reclaim.specs.Naming.{stands};
ghost use Rattle.hk_reclaim.specs.Tally.{IsCounted, SameOutside};
ghost use Rattle.hk_table.specs.Joined.{AreQueued};
ghost use Rattle.hk_table.specs.Settled.{Tells, FreesUncounted};
ghost use Rattle.hk_table.specs.Waits.{AreWaitsCounted};
ghost use Rattle.hk_table.specs.Whole.{whole};
ghost use Rattle.hk_walk.specs.Walks.{seen, AreRight};

use hk_objects::Objects;
use hk_reclaim::Counts;
use hk_walk::Walker;

/// The objects that nothing names vanish, one behind the other: the kept ones of each state that the slots tell are left.
/// Whether one has gone.
#[inline(always)]
pub(crate) fn settle(objects: &mut Objects, counts: &mut Counts) -> bool
    requires { IsCounted objects.old.slots counts.old }
    ensures kept { (s : State) (waiting : List (List Proc)) → Tells s objects.old.slots waiting counts.old → standing (whole objects.new.slots waiting) ≡ kept_objects s }
    ensures queued { (q : Queued) (ps : List Process) → AreWaitsCounted objects.old.slots ps counts.old → AreQueued objects.old.slots q ps → AreQueued objects.new.slots q ps }
    ensures left { objects.new.slots ≡ only (stands objects.new.slots) objects.old.slots }
    ensures free { FreesUncounted objects.old.slots objects.new.slots counts.old }
    ensures next { objects.new.next ≡ objects.old.next }
    ensures removed { IsTrue result ↔ HasLost objects.old.slots objects.new.slots }
    ensures counted { IsCounted objects.new.slots counts.new }
    ensures outside { SameOutside counts.old counts.new }
    ensures pending { counts.new.pending ≡ [] }
{
    let _next = objects.next_name(); // so that the check knows that the names are apart
    counts.settle(objects)
}

/// The objects that no names lead to vanish: the rooted ones of each state that the slots tell are left. Whether one has
/// gone.
pub(crate) fn collect(objects: &mut Objects, counts: &mut Counts) -> bool
    requires { IsCounted objects.old.slots counts.old }
    ensures rooted { (s : State) (waiting : List (List Proc)) → Tells s objects.old.slots waiting counts.old → standing (whole objects.new.slots waiting) ≡ rooted_objects s }
    ensures queued { (q : Queued) (ps : List Process) → AreWaitsCounted objects.old.slots ps counts.old → AreQueued objects.old.slots q ps → AreQueued objects.new.slots q ps }
    ensures left { objects.new.slots ≡ only (stands objects.new.slots) objects.old.slots }
    ensures free { FreesUncounted objects.old.slots objects.new.slots counts.old }
    ensures next { objects.new.next ≡ objects.old.next }
    ensures removed { IsTrue result ↔ HasLost objects.old.slots objects.new.slots }
    ensures counted { IsCounted objects.new.slots counts.new }
    ensures outside { SameOutside counts.old counts.new }
    ensures pending { counts.new.pending ≡ [] }
{
    let _next = objects.next_name(); // so that the check knows that the names are apart
    counts.collect(objects)
}

/// No walk is remembered any longer.
pub(crate) fn forget_all(walker: &mut Walker)
    ensures { walker.new ≡ record walker.old { pairs = [] } }
{
    walker.forget();
}

/// No walk is remembered any longer, where an object has gone.
fn forget_where(walker: &mut Walker, gone: bool)
    ensures { walker.new ≡ record walker.old { pairs = cond gone [] walker.old.pairs } }
{
    if gone {
        forget_all(walker);
    }
}

/// The objects that nothing names vanish, as with `settle`; where one has gone, no walk is remembered.
#[inline(always)]
pub(crate) fn settle_and_forget(objects: &mut Objects, counts: &mut Counts, walker: &mut Walker)
    requires { IsCounted objects.old.slots counts.old }
    ensures kept { (s : State) (waiting : List (List Proc)) → Tells s objects.old.slots waiting counts.old → standing (whole objects.new.slots waiting) ≡ kept_objects s }
    ensures queued { (q : Queued) (ps : List Process) → AreWaitsCounted objects.old.slots ps counts.old → AreQueued objects.old.slots q ps → AreQueued objects.new.slots q ps }
    ensures left { objects.new.slots ≡ only (stands objects.new.slots) objects.old.slots }
    ensures free { FreesUncounted objects.old.slots objects.new.slots counts.old }
    ensures next { objects.new.next ≡ objects.old.next }
    ensures counted { IsCounted objects.new.slots counts.new }
    ensures outside { SameOutside counts.old counts.new }
    ensures pending { counts.new.pending ≡ [] }
    ensures walks { AreRight (seen objects.old.slots) walker.old.pairs → AreRight (seen objects.new.slots) walker.new.pairs }
{
    let gone = settle(objects, counts);
    forget_where(walker, gone);
}

/// The objects that no names lead to vanish, as with `collect`; where one has gone, no walk is remembered.
pub(crate) fn collect_and_forget(objects: &mut Objects, counts: &mut Counts, walker: &mut Walker)
    requires { IsCounted objects.old.slots counts.old }
    ensures rooted { (s : State) (waiting : List (List Proc)) → Tells s objects.old.slots waiting counts.old → standing (whole objects.new.slots waiting) ≡ rooted_objects s }
    ensures queued { (q : Queued) (ps : List Process) → AreWaitsCounted objects.old.slots ps counts.old → AreQueued objects.old.slots q ps → AreQueued objects.new.slots q ps }
    ensures left { objects.new.slots ≡ only (stands objects.new.slots) objects.old.slots }
    ensures free { FreesUncounted objects.old.slots objects.new.slots counts.old }
    ensures next { objects.new.next ≡ objects.old.next }
    ensures counted { IsCounted objects.new.slots counts.new }
    ensures outside { SameOutside counts.old counts.new }
    ensures pending { counts.new.pending ≡ [] }
    ensures walks { AreRight (seen objects.old.slots) walker.old.pairs → AreRight (seen objects.new.slots) walker.new.pairs }
{
    let gone = collect(objects, counts);
    forget_where(walker, gone);
}
