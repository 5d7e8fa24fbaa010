//! Values that stand for a list.
ghost use Rattle.std.specs.Prelude.{List, ℕ};

/// A value that stands for a list of entries, as a counter for the list of its increments.
///
/// Passes take turns at such a value, and each turn adds one entry or none. `docs/TURNS.md`, "What the turn is for".
pub trait Story: Drop {
    /// What a turn may add to the list.
    type Entry: Drop;

    /// The value stands for the list.
    ghost stands: { Self → List Self.Entry → Type 0 };

    /// The number of the pass that owns the entry.
    ghost owner: { Self.Entry → ℕ };
}
