//! Which rights processes have for the objects for whose types there are many templates, type by type: so a template
//! is held against many objects at a time.

use crate::forms::Form;
use crate::spreading::Grown;
use hk_model::NoMemory;
use hk_rights::Rights;
use std::alloc::Global;

/// How many objects are passed over together, at most.
const GROUP: usize = 64;

/// Of how many templates on those of a type are many.
const MANY: usize = 16;

/// The rights of one process, by the places of objects.
#[derive(Drop)]
struct Holding {
    /// The rights for each object, and all rights where the process does not have it, since no merge adds to these.
    rights: Vec<Rights>,
    /// What it has for those of each group, all together.
    unions: Vec<Rights>,
}

/// The rights of all processes.
#[derive(Drop)]
pub(crate) struct Holdings {
    /// The objects for whose types there are many templates, type by type.
    names: Vec<usize>,
    /// For each object its place among these.
    places: Vec<Option<usize>>,
    /// For each template the place of the first object of its type, if there are many for the type.
    starts: Vec<Option<usize>>,
    processes: Vec<Holding>,
}

/// Whether for one of some objects a template can be merged, and gives something there.
fn some_gain(objects: &[Rights], check: Rights, give: Rights) -> bool {
    let mut some = false;
    for rights in objects {
        some |= rights.contains(check) & !rights.contains(give);
    }
    some
}

impl Holding {
    /// Notes the rights for the object at a place.
    fn set(&mut self, place: usize, rights: Rights, count: usize) -> Result<(), NoMemory> {
        if self.rights.is_empty() {
            self.rights.resize(count, Rights::all())?;
            self.unions.resize(count / GROUP + 1, Rights::none())?;
        }
        if let Some(old) = self.rights.get_mut(place) {
            *old = rights;
        }
        if let Some(union) = self.unions.get_mut(place / GROUP) {
            *union = union.union(rights);
        }
        Ok(())
    }

    /// Adds the objects of a group, from one place to before another, for which a template gives something.
    fn list_group(
        &self,
        names: &[usize],
        start: usize,
        end: usize,
        check: Rights,
        give: Rights,
        found: &mut Vec<usize>,
    ) -> Result<(), NoMemory> {
        let Some(objects) = self.rights.get(start..end) else {
            return Ok(());
        };
        if !some_gain(objects, check, give) {
            return Ok(());
        }
        for place in start..end {
            if let (Some(rights), Some(name)) = (self.rights.get(place), names.get(place)) {
                if rights.contains(check) && !rights.contains(give) {
                    found.push(*name)?;
                }
            }
        }
        Ok(())
    }

    /// Adds the objects from one place to before another for which a template gives something.
    fn list_all(
        &self,
        names: &[usize],
        start: usize,
        end: usize,
        check: Rights,
        give: Rights,
        found: &mut Vec<usize>,
    ) -> Result<(), NoMemory> {
        for group in start / GROUP..self.unions.len() {
            let first = group.saturating_mul(GROUP);
            if first >= end {
                return Ok(());
            }
            if self.unions[group].contains(check) {
                let low = if first < start { start } else { first };
                let behind = first.saturating_add(GROUP);
                let high = if end < behind { end } else { behind };
                self.list_group(names, low, high, check, give, found)?;
            }
        }
        Ok(())
    }
}

impl Holdings {
    /// None, of so many processes of a world with these templates and objects of each type.
    pub(crate) fn new(
        alloc: Global,
        count: usize,
        objects: usize,
        forms: &[Form],
        kinds: &[Vec<usize>],
    ) -> Result<Holdings, NoMemory> {
        let mut holdings = Holdings {
            names: Vec::new(alloc),
            places: vec![in alloc; None; objects]?,
            starts: Vec::new(alloc),
            processes: Vec::new(alloc),
        };
        for _ in 0..count {
            holdings.processes.push(Holding {
                rights: Vec::new(alloc),
                unions: Vec::new(alloc),
            })?;
        }
        for number in 0..forms.len() {
            holdings.add_form(forms, number, kinds)?;
        }
        Ok(holdings)
    }

    /// Adds a template behind the others, and with the first of a type its objects, if there are many for it.
    fn add_form(
        &mut self,
        forms: &[Form],
        number: usize,
        kinds: &[Vec<usize>],
    ) -> Result<(), NoMemory> {
        let of = forms.get(number).map(|form| form.of);
        let before = forms.get(number.wrapping_sub(1)).map(|form| form.of);
        let start = if before == of {
            self.starts.last().copied().flatten()
        } else if forms
            .get(number.saturating_add(MANY - 1))
            .map(|form| form.of)
            == of
        {
            Some(self.names.len())
        } else {
            None
        };
        self.starts.push(start)?;
        let (Some(of), true) = (of, before != of && start.is_some()) else {
            return Ok(());
        };
        match kinds.get(of.0 as usize) {
            None => Ok(()),
            Some(names) => self.add_names(names.as_slice()),
        }
    }

    /// Adds objects behind the others.
    fn add_names(&mut self, names: &[usize]) -> Result<(), NoMemory> {
        for name in names {
            let place = self.names.len();
            self.names.push(*name)?;
            if let Some(known) = self.places.get_mut(*name) {
                *known = Some(place);
            }
        }
        Ok(())
    }

    /// The place of an object, if there are many templates for its type.
    fn place(&self, name: usize) -> Option<usize> {
        match self.places.get(name) {
            None => None,
            Some(place) => *place,
        }
    }

    /// Notes the rights of a cell that has grown.
    pub(crate) fn note(&mut self, cell: &Grown) -> Result<(), NoMemory> {
        let Some(place) = self.place(cell.column) else {
            return Ok(());
        };
        let count = self.names.len();
        match self.processes.get_mut(cell.process) {
            None => Ok(()),
            Some(holding) => holding.set(place, cell.rights, count),
        }
    }

    /// The objects for which a template gives a process something, if there are many for its type. `count` is how
    /// many objects there are of it.
    pub(crate) fn gaining(
        &self,
        alloc: Global,
        process: usize,
        number: usize,
        form: &Form,
        count: usize,
    ) -> Result<Option<Vec<usize>>, NoMemory> {
        let Some(start) = self.starts.get(number).copied().flatten() else {
            return Ok(None);
        };
        let mut found = Vec::new(alloc);
        if let Some(holding) = self.processes.get(process) {
            let give = form.give.without(Rights::SPECIAL);
            let end = start.saturating_add(count);
            let names = self.names.as_slice();
            holding.list_all(names, start, end, form.check, give, &mut found)?;
        }
        Ok(Some(found))
    }
}
