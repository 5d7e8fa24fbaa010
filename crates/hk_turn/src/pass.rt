//! Passes.
ghost use Rattle.std.specs.Prelude.{◌≡◌, ◌∷◌, [], false};
ghost use Rattle.hk_turn.specs.Views.{first_view};

use crate::view::View;
use atomic_table::Badge;

/// The right to one turn at a time, and what its bearer has seen of the list. It can't be copied.
///
/// It names the type of the entries alone, and stands for one seat that holds nothing. `docs/TURNS.md`, "Passes".
#[derive(Drop)]
pub struct Pass<E> {
    pub(crate) number: u16,
    pub(crate) badge: Badge<View<E>>,
    ghost whole: { badge.views ≡ first_view badge.views ∷ [] },
    ghost one: { (first_view badge.views).weight ≡ 1 },
    ghost numbered: { (first_view badge.views).number ≡ number },
    ghost free: { (first_view badge.views).holds ≡ false },
}

impl<E> Pass<E> {
    ghost use Rattle.hk_turn.specs.Passes.{pass_number};

    /// The number of the pass, which is below the number of seats and never changes.
    pub fn number(&self) -> u16
        ensures { result ≡ pass_number self.now }
    {
        self.number
    }
}
