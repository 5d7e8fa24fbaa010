//! How long what a walker remembers stays right. A law is a function that does nothing.

ghost use Rattle.std.specs.Prelude.{◌≡◌, ◌⊎◌, [], List};
ghost use Rattle.hk_model.specs.declared.names.Name.{Name};
ghost use Rattle.hk_model.specs.declared.entries.Entry.{Entry};
ghost use Rattle.hk_model.specs.State.{State, object};
ghost use Rattle.hk_walk.specs.declared.trail.Trail.{Trail};
ghost use Rattle.hk_walk.specs.Walks.{AreRight};

/// Pairs that are right stay right where every object keeps its list.
pub fn right_while_lists_stay()
    ensures { (before after : State) (pairs : List (Trail × Entry)) → ((name : Name) → (object before name).entries ≡ (object after name).entries) → AreRight before pairs → AreRight after pairs }
{}

/// Pairs that are right stay right where objects that had no list get one.
pub fn right_while_lists_appear()
    ensures { (before after : State) (pairs : List (Trail × Entry)) → ((name : Name) → ((object before name).entries ≡ []) ⊎ ((object before name).entries ≡ (object after name).entries)) → AreRight before pairs → AreRight after pairs }
{}
