//! What the parts of a table say of the state that they tell. A law is a function that does nothing.

ghost use Rattle.std.specs.Prelude.{◌≡◌, ◌<◌, ◌≤◌, ◌+◌, ℕ, List, [], Option, length, slice_index_or, slice_set};
ghost use Rattle.std.specs.List.{flat_map};
ghost use Rattle.hk_model.specs.declared.names.Inc.{Inc};
ghost use Rattle.hk_model.specs.declared.names.Name.{Name};
ghost use Rattle.hk_model.specs.declared.names.Proc.{Proc};
ghost use Rattle.hk_model.specs.declared.names.Slot.{Slot};
ghost use Rattle.hk_model.specs.declared.entries.Entry.{Entry};
ghost use Rattle.hk_model.specs.declared.entries.Entry.TheVariants.{Empty};
ghost use Rattle.hk_model.specs.declared.objects.Incarnation.{Incarnation};
ghost use Rattle.hk_model.specs.declared.objects.Process.{Process};
ghost use Rattle.hk_model.specs.declared.objects.ProcessState.{ProcessState};
ghost use Rattle.hk_model.specs.State.{State};
ghost use Rattle.hk_model.specs.Keeping.{entry_names, run_names, outer_names};
ghost use Rattle.hk_reclaim.specs.Naming.{times, named_in, namings};
ghost use Rattle.hk_objects.specs.declared.body.Body.{Body};
ghost use Rattle.hk_running.specs.Runners.{process_at, with_run};
ghost use Rattle.hk_spaces.specs.declared.stack.StackFrame.{StackFrame};
ghost use Rattle.hk_table.specs.Settled.{stack_namings, frame_namings, wait_namings, outside_namings};
ghost use Rattle.hk_table.specs.Small.{AreSmall};
ghost use Rattle.hk_table.specs.Stacked.{Stacked, live_from, top_of, slots_of, with_top_of, with_frame, Pops, AreNumbered};

/// The slots of the live incarnations name an object as often as those of the frames do.
pub(crate) fn frames_name()
    ensures { (name : Name) (stacks : List (List StackFrame)) (next : Inc) → AreNumbered stacks next → times name (flat_map (λ (e : Inc × Incarnation). flat_map entry_names e.1.slots) (live_from 0 stacks)) ≡ frame_namings name stacks }
{}

/// What names an object from outside are the slots of the frames, and the processes that wait.
pub(crate) fn outside_names()
    ensures { (name : Name) (s : State) (stacks : List (List StackFrame)) (next : Inc) → AreNumbered stacks next → s.incarnations ≡ live_from 0 stacks → times name (outer_names s) ≡ outside_namings name stacks s.processes }
{}

/// An entry in a slot of the top frame of a process: what it names is named once more, and what stood there once less.
pub(crate) fn written_slot_names()
    ensures { (name : Name) (stacks : List (List StackFrame)) (q slot : ℕ) (entry : Entry) → slot < length (slots_of (top_of (slice_index_or stacks q []))) → frame_namings name (with_top_of stacks q slot entry) + times name (entry_names (slice_index_or (slots_of (top_of (slice_index_or stacks q []))) slot Empty)) ≡ frame_namings name stacks + times name (entry_names entry) }
{}

/// One more frame on the stack of a process: what its slots name is named once more.
pub(crate) fn pushed_frame_names()
    ensures { (name : Name) (st : Stacked) (q : ℕ) (f : StackFrame) → q < length st.stacks → frame_namings name (with_frame st q f).stacks ≡ frame_namings name st.stacks + times name (named_in f.space) }
{}

/// The top frame of a process goes: what its slots name is named once less.
pub(crate) fn popped_frame_names()
    ensures { (name : Name) (old new : List (List StackFrame)) (q : ℕ) (into : Option Slot) → Pops old q into new → frame_namings name new + times name (named_in (slots_of (top_of (slice_index_or old q [])))) ≡ frame_namings name old }
{}

/// All frames of a process go: what their slots name is named less.
pub(crate) fn cleared_frames_name()
    ensures { (name : Name) (stacks : List (List StackFrame)) (q : ℕ) → frame_namings name (slice_set stacks q []) + stack_namings name (slice_index_or stacks q []) ≡ frame_namings name stacks }
{}

/// A process does something else: what it waited for is named once less, and what it waits for once more.
pub(crate) fn changed_run_names()
    ensures { (name : Name) (ps : List Process) (proc : Proc) (run : ProcessState) → proc.0 < length ps → wait_namings name (with_run ps proc run) + times name (run_names (process_at ps proc.0).run) ≡ wait_namings name ps + times name (run_names run) }
{}

/// An object is named so often at most: the counts of who names it never run over.
pub(crate) fn names_are_few()
    ensures { (name : Name) (slots : List (Option (Name × Body))) (stacks : List (List StackFrame)) (ps : List Process) → AreSmall slots stacks ps → outside_namings name stacks ps + namings slots name ≤ 17891584 }
{}
