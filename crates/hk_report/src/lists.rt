//! Lists by number, whose items stand one behind another in one piece of memory.

ghost use Rattle.std.specs.Prelude.{◌≡◌, ◌≤◌, ◌+◌, ◌++◌, ◌∷◌, [], length, replicate, slice_index_or, IfOk, OnOk, OnErr};
ghost use Rattle.std.specs.List.{slice_range};
ghost use Rattle.hk_report.specs.Lists.{IsPlace, ArePlaces, no_place};

use hk_model::{Items, NoMemory};
use std::alloc::Global;
use std::marker::Model;
use std::mem;

/// Adds an item behind the others. A list that had none takes room for one, since most lists stay that short. NoMemory is want
/// of memory.
pub(crate) fn add_one<T: Drop>(alloc: Global, list: &mut Items<T>, item: T) -> Result<(), NoMemory>
    ensures { OnOk result (list.new ≡ list.old ++ item ∷ []) }
{
    let mut items = mem::replace(list, Items::new(alloc)).into_vec();
    if items.is_empty() {
        items.reserve_exact(1)?;
    }
    items.push(item)?;
    *list = Items::from_vec(items);
    Ok(())
}

/// Where the items of a list stand: from one place on, up to another.
#[derive(Clone, Copy)]
pub struct Place {
    pub start: u32,
    pub end: u32,
}

/// Lists by number, each of which stands at its place among the items of all. Lists of the same items can share a place.
/// Contracts see the list of these lists.
#[derive(Drop)]
pub struct Lists<T: Drop + Copy> {
    items: Vec<T>,
    places: Vec<Place>,
}

impl<T: Drop + Copy> Model for Lists<T> {
    ghost use Rattle.std.specs.Prelude.{List, length};
    ghost use Rattle.hk_report.specs.Lists.{ArePlaces, lists_at};

    ghost Value = { List (List T) };

    ghost view = { λ a. lists_at a.items.items a.places.items };

    ghost invariant = { λ a. ArePlaces (length a.items.items) a.places.items };
}

/// The place of so many items behind so many others. NoMemory is want of numbers: there are 2^32, and no history has as
/// many items.
fn place_behind(start: usize, count: usize) -> Result<Place, NoMemory>
    ensures { IfOk result (λ place. place ≡ record { start = start; end = start + count }) }
{
    let (Ok(start), Ok(count)) = (u32::try_from(start), u32::try_from(count)) else {
        return Err(NoMemory);
    };
    match start.checked_add(count) {
        Some(end) => Ok(Place { start, end }),
        None => Err(NoMemory),
    }
}

/// The place of the list of this number; none of the items where there is no such list.
#[tactic(auto, using(crate::proofs::ListLemmas::place_within))]
fn place_at(places: &[Place], number: usize, count: usize) -> Place
    requires { ArePlaces count places.now }
    ensures value { result ≡ slice_index_or places.now number no_place }
    ensures within { IsPlace count result }
{
    match places.get(number) {
        Some(place) => *place,
        None => Place { start: 0, end: 0 },
    }
}

/// Copies the items of a place behind all others, and an item behind these.
fn add_longer<T: Drop + Copy>(items: &mut Vec<T>, place: Place, item: T) -> Result<(), NoMemory>
    requires { IsPlace (length items.old.items) place }
    ensures items { OnOk result (items.new.items ≡ items.old.items ++ (slice_range items.old.items place.start place.end ++ item ∷ [])) }
    ensures kept { length items.old.items ≤ length items.new.items }
{
    for at in place.start..place.end {
        let copied = items[at as usize];
        items.push(copied)?;
    }
    items.push(item)?;
    Ok(())
}

impl<T: Drop + Copy> Lists<T> {
    /// No list.
    pub(crate) fn new(alloc: Global) -> Lists<T>
        ensures { result ≡ [] }
    {
        Lists {
            items: Vec::new(alloc),
            places: Vec::new(alloc),
        }
    }

    /// So many empty lists. NoMemory is want of memory.
    pub(crate) fn empty(alloc: Global, count: usize) -> Result<Lists<T>, NoMemory>
        ensures { IfOk result (λ lists. lists ≡ replicate count []) }
    {
        let mut lists = Lists::new(alloc);
        for _ in 0..count {
            lists.push(&[])?;
        }
        Ok(lists)
    }

    /// The number of lists.
    pub(crate) fn len(&self) -> usize
        ensures { result ≡ length self.now }
    {
        self.places.len()
    }

    /// The list of this number; an empty one where there is none.
    pub(crate) fn get(&self, number: usize) -> &[T]
        ensures { result.now ≡ slice_index_or self.now number [] }
    {
        let place = place_at(self.places.as_slice(), number, self.items.len());
        &self.items[place.start as usize..place.end as usize]
    }

    /// One list more, of these items. NoMemory is want of memory, or of numbers for the items (`place_behind`).
    pub(crate) fn push(&mut self, items: &[T]) -> Result<(), NoMemory>
        ensures ok { OnOk result (self.new ≡ self.old ++ items.now ∷ []) }
        ensures err { OnErr result (self.new ≡ self.old) }
    {
        let place = place_behind(self.items.len(), items.len())?;
        self.items.extend_from_slice(items)?;
        self.places.push(place)?;
        Ok(())
    }

    /// One list more, of the same items as the list of this number. NoMemory is want of memory.
    pub(crate) fn push_again(&mut self, number: usize) -> Result<(), NoMemory>
        ensures { OnOk result (self.new ≡ self.old ++ slice_index_or self.old number [] ∷ []) }
    {
        let place = place_at(self.places.as_slice(), number, self.items.len());
        self.places.push(place)?;
        Ok(())
    }

    /// One list more, of the items of the list of this number and an item behind them. NoMemory is want of memory, or of
    /// numbers for the items (`place_behind`).
    pub(crate) fn push_longer(&mut self, number: usize, item: T) -> Result<(), NoMemory>
        ensures { OnOk result (self.new ≡ self.old ++ (slice_index_or self.old number [] ++ item ∷ []) ∷ []) }
    {
        let items = self.items.len();
        let shorter = place_at(self.places.as_slice(), number, items);
        let count = (shorter.end - shorter.start) as usize + 1;
        let place = place_behind(items, count)?;
        add_longer(&mut self.items, shorter, item)?;
        self.places.push(place)?;
        Ok(())
    }
}
