//! The rule of the table.
use crate::story::Story;
use crate::view::View;
use atomic_table::TableRule;
use std::marker::PhantomData;

/// The rule of the turn, at a table whose key is the number of seats. `docs/TURNS.md`, "The rule".
pub struct TurnRule<T> {
    of: PhantomData<T>,
}

impl<T: Story> TableRule<Option<T>, View<T::Entry>, u16> for TurnRule<T> {
    ghost use Rattle.hk_turn.specs.Rule.{KeepsRule};
    ghost use Rattle.hk_turn.specs.Views.{opening_view};

    ghost holds = { λ seats. KeepsRule T.stands T.owner seats };

    ghost first = { opening_view };
}
