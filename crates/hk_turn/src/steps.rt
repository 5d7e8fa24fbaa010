//! The kinds of step at the table. `docs/TURNS.md`, "The kinds of step".
use crate::story::Story;
use crate::view::View;
use atomic_table::{Join, Play, Split};
use std::marker::{Brand, PhantomData};

/// Load: the number of entries becomes known.
pub struct Load;

impl<T, E> Play<Option<T>, View<E>> for Load {
    ghost use Rattle.hk_turn.specs.Steps.{Loads};

    ghost then = { Loads };
}

/// Try: the turn is won or lost.
pub struct Try<T> {
    of: PhantomData<T>,
}

impl<T: Story> Play<Option<T>, View<T::Entry>> for Try<T> {
    ghost use Rattle.hk_turn.specs.Steps.{Tries};

    ghost then = { Tries T.stands T.owner };
}

/// Which list the turn is given back with. The call picks it, since a step is not told an entry.
pub trait Noting<E> {
    ghost use Rattle.std.specs.Prelude.{List};

    ghost noted: { List E → Type 0 };
}

impl<E> Noting<E> for Brand {
    ghost noted = { λ _. Unit {0} };
}

/// Finish and back: the turn is given back.
pub struct GiveBack<J> {
    of: PhantomData<J>,
}

impl<T, E, J: Noting<E>> Play<Option<T>, View<E>> for GiveBack<J> {
    ghost use Rattle.hk_turn.specs.Steps.{GivesBack};

    ghost then = { GivesBack J.noted };
}

/// Split: the first seat makes a pass.
pub struct MakePass;

impl<E> Split<View<E>> for MakePass {
    ghost use Rattle.hk_turn.specs.Views.{maker_after_split, split_view};

    ghost left = { maker_after_split };

    ghost right = { split_view };
}

/// Join: a seat takes in another.
pub struct TakeIn;

impl<E> Join<View<E>> for TakeIn {
    ghost use Rattle.hk_turn.specs.Views.{joined_view, spent_view};

    ghost both = { joined_view };

    ghost spent = { spent_view };
}
