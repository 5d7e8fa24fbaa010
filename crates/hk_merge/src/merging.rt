//! Merging a capability with a template.

ghost use Rattle.std.specs.Prelude.{◌≡◌};
ghost use Rattle.hk_rights.specs.Rights.{minus, special_rights};
ghost use Rattle.hk_model.specs.declared.entries.Entry.TheVariants.{Form};
ghost use Rattle.hk_model.specs.Merging.{merged, merged_rights};
ghost use Rattle.hk_model.specs.Targets.{amplify_form};
ghost use Rattle.hk_merge.specs.NameSpaces.{merged_with};

use crate::refusing::allowed;
use hk_model::{Cap, Name, Param, Refusal, Template};
use hk_rights::Rights;

/// A capability for an object of the type `of`, merged with a template (`docs/RULES.md`,
/// "Merging").
///
/// `BadTemplate` at `form_step` comes exactly where the template is a Create template. Else, at
/// `step`: `WrongType` where the template names another type, and then `Denied` with the lowest
/// right of the template's `check` that the capability lacks.
pub fn merge(
    cap: Cap,
    of: Name,
    template: Template,
    step: u8,
    form_step: u8,
) -> Result<Cap, Refusal>
    ensures { result ≡ merged_with cap of template step form_step }
{
    let form = amplify_form(&template, form_step)?;
    merged(cap, of, &form, step)
}

/// What an Amplify template asks for and gives (`docs/RULES.md`, "Templates").
///
/// `BadTemplate` where it is a Create template.
pub fn amplify_form(template: &Template, step: u8) -> Result<Param, Refusal>
    ensures { result ≡ amplify_form (Form template.now) step }
{
    match template {
        Template::Amplify { of, check, give } => Ok(Param {
            of: *of,
            check: *check,
            give: *give,
        }),
        Template::Create { .. } => Err(Refusal::BadTemplate { step }),
    }
}

/// A capability that meets what a template asks for, with the rights that it gives.
pub(crate) fn merged(cap: Cap, of: Name, form: &Param, step: u8) -> Result<Cap, Refusal>
    ensures { result ≡ merged cap of form.now step }
{
    if let Some(wanted) = form.of {
        if wanted != of {
            return Err(Refusal::WrongType { step });
        }
    }
    allowed(cap.rights, form.check, step)?;
    Ok(Cap {
        name: cap.name,
        rights: merged_rights(cap.rights, form.of, form.give),
    })
}

/// What is left of the rights, or what they become.
fn merged_rights(rights: Rights, of: Option<Name>, give: Rights) -> Rights
    ensures { result ≡ merged_rights rights of give }
{
    let kept = give.intersection(Rights::SPECIAL).intersection(rights);
    match of {
        None => give.intersection(rights),
        Some(_) => ordinary_rights(give).union(kept),
    }
}

/// The rights of a set that are not special.
fn ordinary_rights(rights: Rights) -> Rights
    ensures { result ≡ minus rights special_rights }
{
    rights.without(Rights::SPECIAL)
}
