//! Turns: they are made with their passes, taken, and closed.
ghost use Rattle.std.specs.Prelude.{◌≡◌, ◌<◌, ◌≤◌, ◌+◌, ◌-◌, [], length, IfOk, None, false};
ghost use Rattle.hk_turn.specs.Views.{blank_view, opening_view};

use crate::memory::NoMemory;
use crate::pass::Pass;
use crate::rest::Rest;
use crate::rule::TurnRule;
use crate::steps::{Load, MakePass, TakeIn, Try};
use crate::story::Story;
use crate::turn::Turn;
use crate::view::View;
use atomic_table::{Seat, Table};
use std::alloc::Global;
use std::sync::Wait;

/// A value that passes take turns at. Threads share it by reference.
///
/// It is one word and one slot of a table. `docs/TURNS.md`, "The word and the slot".
#[derive(Drop)]
pub struct Turns<T: Story> {
    pub(crate) table: Table<Option<T>, View<T::Entry>, u16, TurnRule<T>, Global>,
    pub(crate) seats: u16,
    rest: Rest,
    ghost sized: { (table.shared.table_id.words ≡ 1) × (table.shared.table_id.slots ≡ 1) },
    ghost keyed: { (table.shared.key ≡ seats) × (0 < seats) },
}

impl<T: Story> Turns<T> {
    ghost use Rattle.hk_turn.specs.Turns.{seat_count, IsNewPass, AreNewPasses};

    /// Turns at a value that stands for the empty list, and a pass for each of the `seats`, which is at least 1.
    ///
    /// The passes are numbered from 0 in the order of the list, and have seen nothing. The one error is `NoMemory`,
    /// which drops the value. `docs/TURNS.md`, "Passes".
    pub fn new(
        alloc: Global,
        value: T,
        seats: u16,
    ) -> Result<(Turns<T>, Vec<Pass<T::Entry>>), NoMemory>
        requires seats { 0 < seats }
        requires stands { T.stands value [] }
        ensures seats { IfOk result (λ made. seat_count made.0 ≡ seats) }
        ensures count { IfOk result (λ made. length made.1.items ≡ seats) }
        ensures passes { IfOk result (λ made. AreNewPasses made.0 0 made.1.items) }
    {
        let (turns, mut first) = Turns::lay_table(alloc, value, seats)?;
        let mut passes = Vec::new(alloc);
        for number in 1..seats {
            passes.reserve(1)?;
            passes.push_reserved(turns.make_pass(&mut first, number));
        }
        let pass = Pass {
            number: 0,
            badge: first.into_badge(),
        };
        passes.insert(0, pass)?;
        Ok((turns, passes))
    }

    /// The table, with the one seat that stands for all passes.
    fn lay_table(
        alloc: Global,
        value: T,
        seats: u16,
    ) -> Result<(Turns<T>, Seat<Option<T>, View<T::Entry>>), NoMemory>
        requires seats { 0 < seats }
        requires stands { T.stands value [] }
        ensures seats { IfOk result (λ laid. seat_count laid.0 ≡ seats) }
        ensures first { IfOk result (λ laid. (laid.1.table_id ≡ laid.0.table.shared.table_id) × (laid.1.me ≡ (opening_view seats, []))) }
    {
        let mut slots = Vec::with_capacity(alloc, 1)?;
        slots.push_reserved(Some(value));
        let Ok((table, first)) = Table::new(alloc, &[0], slots, &seats) else {
            return Err(NoMemory);
        };
        let rest = Rest::new();
        Ok((Turns { table, seats, rest }, first))
    }

    /// Splits the pass of that number off the first seat, which has made those below it.
    fn make_pass(&self, first: &mut Seat<Option<T>, View<T::Entry>>, number: u16) -> Pass<T::Entry>
        requires number { (0 < number) × (number < seat_count self.now) }
        requires first { (first.old.table_id ≡ self.now.table.shared.table_id) × (first.old.me ≡ (blank_view 0 number (seat_count self.now + 1 - number) (seat_count self.now), [])) }
        ensures first { (first.new.table_id ≡ first.old.table_id) × (first.new.me ≡ (blank_view 0 (number + 1) (seat_count self.now - number) (seat_count self.now), [])) }
        ensures new { IsNewPass self.now number result }
    {
        let seat = self.table.shared.split_seat::<MakePass>(first);
        Pass {
            number,
            badge: seat.into_badge(),
        }
    }
}

impl<T: Story> Turns<T> {
    ghost use Rattle.hk_turn.specs.Rule.{GoesOn};
    ghost use Rattle.hk_turn.specs.Steps.{Wins};
    ghost use Rattle.hk_turn.specs.Passes.{pass_number, seen_list, known_count, IsSamePass};
    ghost use Rattle.hk_turn.specs.Turns.{IsPassOf, IsTurnOf, found_list, turn_value};

    /// Takes the turn with a pass of these turns. It may wait for whoever holds the turn.
    ///
    /// The value of the turn stands for the list found. That list begins with the list that the pass had seen, the
    /// pass's number owns no entry behind that, and it has at least as many entries as the pass knew of.
    /// `docs/TURNS.md`, "A turn".
    pub fn take<R: Wait>(&self, rt: &R, pass: Pass<T::Entry>) -> Turn<'_, T>
        requires { IsPassOf self.now pass }
        ensures turn { IsTurnOf pass result }
        ensures stands { T.stands (turn_value result) (found_list result) }
        ensures goes_on { GoesOn T.owner (pass_number pass) (seen_list pass) (found_list result) }
        ensures known { known_count pass ≤ length (found_list result) }
    {
        let Pass { number, badge } = pass;
        let mut seat = badge.into_seat();
        let even = self.win(rt, &mut seat);
        let value = self.table.shared.exchange(&mut seat, 0, None).unwrap();
        Turn {
            turns: self,
            seat,
            number,
            even,
            value,
        }
    }

    /// Tries until a try is won, and gives the word found, which is even.
    fn win<R: Wait>(&self, rt: &R, seat: &mut Seat<Option<T>, View<T::Entry>>) -> u64
        requires seat { (seat.old.table_id ≡ self.now.table.shared.table_id) × (0 < seat.old.me.0.weight) }
        ensures seat { seat.new.table_id ≡ seat.old.table_id }
        ensures won { Wins T.stands T.owner seat.old.me result seat.new.me }
    {
        let mut tries = 0u32;
        for _ in rt.forever() {
            let word = self.table.shared.peek(0);
            if word % 2 == 0 {
                let found = self
                    .table
                    .shared
                    .compare_exchange::<Try<T>>(seat, 0, word, word + 1);
                if found == word {
                    return word;
                }
            }
            self.rest.pause(rt, tries);
            tries = tries.saturating_add(1);
        }
        unreachable!()
    }

    /// The number of entries at one point of the call, which waits for nobody.
    ///
    /// It is at least what the pass had seen and knew, and the pass knows it from then on: each list that it is shown
    /// later has at least so many entries. `docs/TURNS.md`, "Passes".
    pub fn length(&self, pass: Pass<T::Entry>) -> (Pass<T::Entry>, u64)
        requires { IsPassOf self.now pass }
        ensures pass { IsSamePass pass result.0 × (seen_list result.0 ≡ seen_list pass) }
        ensures at_least { (length (seen_list pass) ≤ result.1) × (known_count pass ≤ result.1) }
        ensures known { known_count result.0 ≡ result.1 }
    {
        let Pass { number, badge } = pass;
        let mut seat = badge.into_seat();
        let word = self.table.shared.load::<Load>(&mut seat, 0);
        let pass = Pass {
            number,
            badge: seat.into_badge(),
        };
        (pass, word / 2)
    }
}

impl<T: Story> Turns<T> {
    ghost use Rattle.hk_turn.specs.Passes.{RemembersAll};
    ghost use Rattle.hk_turn.specs.Turns.{seat_count, ArePassesOf, StandsForAll};

    /// The value, once all passes of these turns are back.
    ///
    /// It stands for a list that begins with what each pass had seen, has at least as many entries as each knew of,
    /// and whose entries are owned by numbers below that of the seats. `docs/TURNS.md`, "Closing".
    pub fn close(self, passes: Vec<Pass<T::Entry>>) -> T
        requires count { length passes.items ≡ seat_count self }
        requires own { ArePassesOf self passes.items }
        ensures { StandsForAll T.stands T.owner (seat_count self) passes.items result }
    {
        let seat = self.join_passes(passes);
        let Turns { table, .. } = self;
        let mut closed = table.close_with(seat);
        let value = closed.take(0);
        closed.free();
        value.unwrap()
    }

    /// One seat that stands for all passes, and remembers what each had seen and knew.
    fn join_passes(&self, mut passes: Vec<Pass<T::Entry>>) -> Seat<Option<T>, View<T::Entry>>
        requires count { length passes.items ≡ seat_count self.now }
        requires own { ArePassesOf self.now passes.items }
        ensures seat { (result.table_id ≡ self.now.table.shared.table_id) × (result.me.1 ≡ []) }
        ensures all { (result.me.0.weight ≡ seat_count self.now) × (result.me.0.holds ≡ false) }
        ensures remembers { RemembersAll result.me.0 passes.items }
    {
        let Pass { number: _, badge } = passes.pop().unwrap();
        let mut seat = badge.into_seat();
        while let Some(pass) = passes.pop() {
            let Pass { number: _, badge } = pass;
            let other = badge.into_seat();
            self.table.shared.join_seat::<TakeIn>(&mut seat, other);
        }
        seat
    }
}
