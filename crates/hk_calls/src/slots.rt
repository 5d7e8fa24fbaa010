//! Slots, and what stands in them.

ghost use Rattle.std.specs.Prelude.{◌≡◌, ◌<◌, IfOk};
ghost use Rattle.hk_model.specs.declared.entries.Entry.TheVariants.{Form};
ghost use Rattle.hk_model.specs.Targets.{slot_at};
ghost use Rattle.hk_model.specs.Rule.{looked};

use hk_model::limits::SLOT_LIMIT;
use hk_model::{Entry, Refusal, Slot, Template};

/// The number of a slot (`docs/RULES.md`, "The order of refusals").
///
/// `Range` where it is not below 64.
pub fn slot_at(slot: Slot, step: u8) -> Result<usize, Refusal>
    ensures value { result ≡ slot_at slot step }
    ensures low { IfOk result (λ at. at < 64) }
{
    let at = usize::from(slot.0);
    if at < SLOT_LIMIT {
        Ok(at)
    } else {
        Err(Refusal::Range { step })
    }
}

/// What Look replies for an entry: its kind in the highest byte, and its rights (`docs/RULES.md`, "Look").
pub fn looked(entry: Entry) -> u32
    ensures { result ≡ looked entry }
{
    match entry {
        Entry::Empty => 0,
        Entry::Held(cap) => 0x0100_0000 + cap.rights.bits(),
        Entry::Form(form) => form_looked(form),
    }
}

/// What Look replies for a template: its kind, and the rights that it gives.
fn form_looked(form: Template) -> u32
    ensures { result ≡ looked (Form form) }
{
    match form {
        Template::Amplify { give, .. } => 0x0200_0000 + give.bits(),
        Template::Create { give, .. } => 0x0300_0000 + give.bits(),
    }
}
