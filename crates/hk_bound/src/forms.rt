//! The templates of a world that a merge can use.

ghost use Rattle.std.specs.Prelude.{◌≡◌, ◌<◌, ◌≤◌, IfOk, OnOk, IfSome, IsSome, slice_get};
ghost use Rattle.hk_bound.specs.Forms.{entry_form, param_form, made_form, Holds, IsFirst, AreSorted, IsStart, KeepsForms, HaveEntryForms, HaveParamForms, HaveObjectForms, AreForms};

use crate::opening::{entries_of, object_count, params_of, type_of};
use hk_model::{Entry, Name, NoMemory, Param, Template, World};
use hk_rights::Rights;
use std::alloc::Global;
use std::cmp::Ordering;

/// An Amplify template that names a type.
#[derive(Clone, Copy, PartialEq, Eq)]
pub(crate) struct Form {
    pub of: Name,
    pub check: Rights,
    pub give: Rights,
}

/// By the type that a template is for, then by what it asks for, then by what it gives.
impl Ord for Form {
    ghost use Rattle.std.specs.Ordering.{nat_cmp, on, then_cmp};
    ghost use Rattle.std.specs.Cmp.Rules.{comparing};
    ghost use Rattle.std.proofs.Common.{rules};

    ghost cmp = { then_cmp (then_cmp (on (λ form. form.of.0) nat_cmp) (on (λ form. form.check) nat_cmp)) (on (λ form. form.give) nat_cmp) };

    ghost total = { Prim.search (comparing, rules) };

    ghost matches_partial_cmp = { Prim.search (comparing, rules) };

    ghost matches_eq = { Prim.search (comparing, rules) };

    fn cmp(&self, other: &Form) -> Ordering {
        self.of
            .0
            .cmp(&other.of.0)
            .then(self.check.bits().cmp(&other.check.bits()))
            .then(self.give.bits().cmp(&other.give.bits()))
    }
}

impl PartialOrd for Form {
    ghost use Rattle.std.specs.Ordering.{nat_cmp, on, then_cmp, as_partial_cmp};
    ghost use Rattle.std.specs.Cmp.{partial_order_from_own_ties};
    ghost use Rattle.std.specs.Cmp.Rules.{comparing};
    ghost use Rattle.std.proofs.Common.{rules};

    ghost partial_cmp = { as_partial_cmp (then_cmp (then_cmp (on (λ form. form.of.0) nat_cmp) (on (λ form. form.check) nat_cmp)) (on (λ form. form.give) nat_cmp)) };

    ghost laws = { partial_order_from_own_ties (Prim.search (comparing, rules)) (Prim.search (comparing, rules)) };

    fn partial_cmp(&self, other: &Form) -> Option<Ordering> {
        Some(self.cmp(other))
    }
}

/// The template for a type that asks for nothing and gives all: what a process can make of a type.
pub(crate) fn made_form(of: Name) -> Form
    ensures { result ≡ made_form of }
{
    Form {
        of,
        check: Rights::none(),
        give: Rights::all(),
    }
}

/// The Amplify template that an entry is, if it is one and names a type.
pub(crate) fn entry_form(entry: &Entry) -> Option<Form>
    ensures { result ≡ entry_form entry.now }
{
    match entry {
        Entry::Form(
            Template::Amplify {
                of: Some(of),
                check,
                give,
            },
        ) => Some(Form {
            of: *of,
            check: *check,
            give: *give,
        }),
        _ => None,
    }
}

/// The Amplify template that a parameter is, if it names a type.
pub(crate) fn param_form(param: &Param) -> Option<Form>
    ensures { result ≡ param_form param.now }
{
    match param.of {
        None => None,
        Some(of) => Some(Form {
            of,
            check: param.check,
            give: param.give,
        }),
    }
}

/// The place from which on templates are for a type or for those with later names.
pub(crate) fn start_of(forms: &[Form], of: Name) -> usize
    requires { AreSorted forms.now }
    ensures { IsStart forms.now of.0 result }
{
    let first = Form {
        of,
        check: Rights::none(),
        give: Rights::none(),
    };
    match forms.binary_search(&first) {
        Ok(place) => place,
        Err(place) => place,
    }
}

/// The place of a template among others.
pub(crate) fn place_of(forms: &[Form], form: &Form) -> Option<usize>
    requires { AreSorted forms.now }
    ensures found { IfSome result (λ place. IsFirst forms.now form.now place) }
    ensures some { Holds forms.now form.now → IsSome result }
{
    forms.binary_search(form).ok()
}

/// Adds a template, if there is one.
fn add(forms: &mut Vec<Form>, form: Option<Form>) -> Result<(), NoMemory>
    ensures keeps { OnOk result (KeepsForms forms.old.items forms.new.items) }
    ensures holds { OnOk result (IfSome form (λ f. Holds forms.new.items f)) }
{
    if let Some(form) = form {
        forms.push(form)?;
    }
    Ok(())
}

/// Adds the templates among some entries.
fn add_entries(forms: &mut Vec<Form>, entries: &[Entry]) -> Result<(), NoMemory>
    ensures keeps { OnOk result (KeepsForms forms.old.items forms.new.items) }
    ensures holds { OnOk result (HaveEntryForms forms.new.items entries.now) }
{
    for entry in entries {
        add(forms, entry_form(entry))?;
    }
    Ok(())
}

/// Adds the templates among some parameters.
fn add_params(forms: &mut Vec<Form>, params: &[Param]) -> Result<(), NoMemory>
    ensures keeps { OnOk result (KeepsForms forms.old.items forms.new.items) }
    ensures holds { OnOk result (HaveParamForms forms.new.items params.now) }
{
    for param in params {
        add(forms, param_form(param))?;
    }
    Ok(())
}

/// Adds the templates of an object: those of its list and of its parameters, and for a type the one
/// that a process can make of it.
fn add_object(forms: &mut Vec<Form>, world: &World, name: usize) -> Result<(), NoMemory>
    ensures keeps { OnOk result (KeepsForms forms.old.items forms.new.items) }
    ensures holds { OnOk result (HaveObjectForms world.now forms.new.items name) }
{
    add_entries(forms, entries_of(world, name))?;
    add_params(forms, params_of(world, name))?;
    if type_of(world, name).0 == 0 {
        add(forms, Some(made_form(Name(name as u64))))?;
    }
    Ok(())
}

/// Puts templates in their order, each once.
fn put_in_order(forms: &mut Vec<Form>)
    ensures sorted { AreSorted forms.new.items }
    ensures keeps { KeepsForms forms.old.items forms.new.items }
{
    forms.sort_unstable();
    forms.dedup();
}

/// All Amplify templates of a world that name a type: those in its slots and lists, those of its
/// parameters, and one for each type that a process can make of it.
pub(crate) fn all_forms(alloc: Global, world: &World) -> Result<Vec<Form>, NoMemory>
    ensures { IfOk result (λ forms. AreForms world.now forms.items) }
{
    let mut forms = Vec::new(alloc);
    for name in 0..object_count(world) {
        add_object(&mut forms, world, name)?;
    }
    for task in world.tasks() {
        add_entries(&mut forms, task.slots.as_slice())?;
    }
    put_in_order(&mut forms);
    Ok(forms)
}
