//! The calls on templates: MakeTemplate and Merge.

ghost use Rattle.std.specs.Prelude.{◌≡◌};
ghost use Rattle.hk_model.specs.Targets.{amplify_form};
ghost use Rattle.hk_model.specs.Rule.{made_form, make_template, merge_cap};
ghost use Rattle.hk_plain.specs.Giving.{Gives};

use crate::tables::Tables;
use hk_calls::{Stop, Wanted, slot_at};
use hk_merge::{amplify_form, held, merge};
use hk_model::{Answer, Entry, Inc, Making, Name, Param, Path, Refusal, Slot, Template};
use hk_rights::Rights;
use std::marker::PhantomData;

/// A template for a type.
fn made_form(kind: &Making, of: Name) -> Template
    ensures { result ≡ made_form kind.now of }
{
    match kind {
        Making::Amplify { check, give } => Template::Amplify {
            of: Some(of),
            check: *check,
            give: *give,
        },
        Making::Create { give } => Template::Create { of, give: *give },
    }
}

/// What the Amplify template of an entry asks for and gives.
fn amplifying(entry: &Entry, step: u8) -> Result<Param, Refusal>
    ensures { result ≡ amplify_form entry.now step }
{
    match entry {
        Entry::Empty => Err(Refusal::Empty { step }),
        Entry::Held(_cap) => Err(Refusal::BadTemplate { step }),
        Entry::Form(form) => amplify_form(form, step),
    }
}

impl Tables {
    /// MakeTemplate: the slot becomes a template for the type that the path leads to.
    #[tactic(auto, unfolding(hk_model::specs::Rule::make_template))]
    pub(crate) fn make_template(
        &mut self,
        inc: Inc,
        path: &Path,
        kind: &Making,
        into: Slot,
    ) -> Result<Answer, Stop>
        ensures { Gives self.old (make_template self.old inc path.now kind.now into) result self.new }
    {
        let slot = slot_at(into, path.len() as u8)?;
        let cap = self.target(inc, path, Wanted::Types, Rights::ENV_A0)?;
        let form = made_form(kind, cap.name);
        self.set_slot(inc, slot, Entry::Form(form));
        Ok(Answer::Done)
    }

    /// Merge: the capability in a slot, merged with the template that the path leads to.
    #[tactic(auto, unfolding(hk_model::specs::Rule::merge_cap))]
    pub(crate) fn merge_cap(
        &mut self,
        inc: Inc,
        path: &Path,
        cap: Slot,
        into: Slot,
    ) -> Result<Answer, Stop>
        ensures { Gives self.old (merge_cap self.old inc path.now cap into) result self.new }
    {
        let _ = PhantomData::<Template>; // Rattle is to know what an Entry holds
        let step = path.len() as u8;
        let from = slot_at(cap, step)?;
        let slot = slot_at(into, step + 1)?;
        let entry = self.walk(inc, path)?;
        let form = amplifying(&entry, step - 1)?;
        let given = held(self.slot(inc, from), step)?;
        let form = Template::Amplify {
            of: form.of,
            check: form.check,
            give: form.give,
        };
        let made = merge(given, self.type_of(given.name), form, step, step - 1)?;
        self.set_slot(inc, slot, Entry::Held(made));
        Ok(Answer::Done)
    }
}
