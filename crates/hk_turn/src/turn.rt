//! A turn that was taken: its value is changed, and it is given back.
ghost use Rattle.std.specs.Prelude.{◌≡◌, ◌<◌, ◌*◌, ◌^◌, ◌++◌, [], ◌∷◌, length, true, None};
ghost use Rattle.std.specs.Borrow.{sem};

use crate::pass::Pass;
use crate::steps::{GiveBack, Noting};
use crate::story::Story;
use crate::turns::Turns;
use crate::view::View;
use atomic_table::Seat;
use std::marker::Brand;

/// A turn that was taken, with the value. It ends by `finish` or `back`, and can't be dropped.
///
/// `docs/TURNS.md`, "A turn".
pub struct Turn<'a, T: Story> {
    pub(crate) turns: &'a Turns<T>,
    pub(crate) seat: Seat<Option<T>, View<T::Entry>>,
    pub(crate) number: u16,
    // The word that was found: twice the number of entries.
    pub(crate) even: u64,
    pub(crate) value: T,
    ghost here: { seat.table_id ≡ turns.now.table.shared.table_id },
    ghost out: { seat.me.1 ≡ (0, None) ∷ [] },
    ghost held: { (seat.me.0.holds ≡ true) × (seat.me.0.weight ≡ 1) },
    ghost numbered: { seat.me.0.number ≡ number },
    ghost counted: { 2 * length seat.me.0.found ≡ even },
}

impl<'a, T: Story> Turn<'a, T> {
    ghost use Rattle.hk_turn.specs.Loan.{lends_value};
    ghost use Rattle.hk_turn.specs.Turns.{turn_value};

    /// The value, to be read and changed. All else of the turn stays.
    pub fn value(&mut self) -> &mut T
        ensures* lends { sem 𝓛 (lends_value T.row T.Entry.row T.Story self.entry result) }
        ensures value { result.now ≡ turn_value self.old }
    {
        &mut self.value
    }
}

impl<T: Story> Turn<'_, T> {
    ghost use Rattle.hk_turn.specs.Passes.{seen_list};
    ghost use Rattle.hk_turn.specs.Turns.{IsPassAfter, found_list, turn_number, turn_value};

    /// Gives the turn back with one entry more, which the pass's number owns.
    ///
    /// The value has to stand for the list found with the entry behind it, and the list found to have fewer than 2^62
    /// entries. The pass that comes back has seen the list with the entry. `docs/TURNS.md`, "A turn".
    pub fn finish(self, entry: T::Entry) -> Pass<T::Entry>
        requires stands { T.stands (turn_value self) (found_list self ++ entry ∷ []) }
        requires own { T.owner entry ≡ turn_number self }
        requires room { length (found_list self) < 2 ^ 62 }
        ensures pass { IsPassAfter self.entry result }
        ensures seen { seen_list result ≡ found_list self.entry ++ entry ∷ [] }
    {
        let Turn {
            turns,
            seat,
            number,
            even,
            value,
        } = self;
        turns.give_back_with::<Brand>(seat, number, value, even + 2, &entry)
    }

    /// Gives the turn back with no entry more.
    ///
    /// The value has to stand for the list found, and the pass that comes back has seen that list.
    /// `docs/TURNS.md`, "A turn".
    pub fn back(self) -> Pass<T::Entry>
        requires stands { T.stands (turn_value self) (found_list self) }
        ensures pass { IsPassAfter self.entry result }
        ensures seen { seen_list result ≡ found_list self.entry }
    {
        let Turn {
            turns,
            seat,
            number,
            even,
            value,
        } = self;
        turns.give_back::<Brand>(seat, number, value, even)
    }
}

impl<T: Story> Turns<T> {
    ghost use Rattle.hk_turn.specs.Steps.{IsHolder, MayGiveBack};
    ghost use Rattle.hk_turn.specs.Passes.{pass_number, known_count, seen_list};

    /// Puts the value into its slot and stores the word, so that the pass has seen the list that is noted.
    fn give_back<J: Noting<T::Entry>>(
        &self,
        mut seat: Seat<Option<T>, View<T::Entry>>,
        number: u16,
        value: T,
        word: u64,
    ) -> Pass<T::Entry>
        requires seat { (seat.table_id ≡ self.now.table.shared.table_id) × (seat.me.1 ≡ (0, None) ∷ []) }
        requires holder { IsHolder number seat.me.0 }
        requires list { MayGiveBack T.stands T.owner J.noted number seat.me.0.found value word }
        ensures pass { (result.badge.table_id ≡ seat.table_id) × (pass_number result ≡ number) × (known_count result ≡ seat.me.0.known) }
        ensures seen { J.noted (seen_list result) }
    {
        self.table.shared.exchange(&mut seat, 0, Some(value));
        self.table.shared.store::<GiveBack<J>>(&mut seat, 0, word);
        Pass {
            number,
            badge: seat.into_badge(),
        }
    }

    /// The same, where the list that is noted names an entry.
    fn give_back_with<J: Noting<T::Entry>>(
        &self,
        seat: Seat<Option<T>, View<T::Entry>>,
        number: u16,
        value: T,
        word: u64,
        _entry: &T::Entry,
    ) -> Pass<T::Entry>
        requires seat { (seat.table_id ≡ self.now.table.shared.table_id) × (seat.me.1 ≡ (0, None) ∷ []) }
        requires holder { IsHolder number seat.me.0 }
        requires list { MayGiveBack T.stands T.owner J.noted number seat.me.0.found value word }
        ensures pass { (result.badge.table_id ≡ seat.table_id) × (pass_number result ≡ number) × (known_count result ≡ seat.me.0.known) }
        ensures seen { J.noted (seen_list result) }
    {
        self.give_back::<J>(seat, number, value, word)
    }
}
