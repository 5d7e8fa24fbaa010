//! Equal copies of the items of a script.

ghost use Rattle.std.specs.Prelude.{◌≡◌, IfOk};

use hk_format::{Body, Head, Item, MakingText, Part, Written};
use hk_model::Items;
use hk_model::copying::Duplicate;
use std::alloc::{AllocError, Global};

/// Equal items, in their order. The only error is want of memory.
pub fn item_copies(alloc: Global, items: &[Item]) -> Result<Items<Item>, AllocError>
    ensures { IfOk result (λ copies. copies ≡ items.now) }
{
    let mut copies = Items::new(alloc);
    for item in items {
        copies.push(item_copy(alloc, item)?)?;
    }
    Ok(copies)
}

/// An equal item.
fn item_copy(alloc: Global, item: &Item) -> Result<Item, AllocError>
    ensures { IfOk result (λ copy. copy ≡ item.now) }
{
    Ok(Item {
        line: item.line,
        head: head_copy(alloc, &item.head)?,
        parts: part_copies(alloc, item.parts.as_slice())?,
    })
}

/// An equal head.
fn head_copy(alloc: Global, head: &Head) -> Result<Head, AllocError>
    ensures { IfOk result (λ h. h ≡ head.now) }
{
    Ok(match head {
        Head::LimitIs(limit) => Head::LimitIs(*limit),
        Head::TypeIs { name } => Head::TypeIs {
            name: name.copy(alloc)?,
        },
        Head::ObjectIs { name, of } => Head::ObjectIs {
            name: name.copy(alloc)?,
            of: of.copy(alloc)?,
        },
        Head::SemaphoreIs { name, count } => Head::SemaphoreIs {
            name: name.copy(alloc)?,
            count: *count,
        },
        Head::ProcedureIs { name, code } => Head::ProcedureIs {
            name: name.copy(alloc)?,
            code: code.copy(alloc)?,
        },
        Head::CodeIs { name } => Head::CodeIs {
            name: name.copy(alloc)?,
        },
        Head::ProcessIs { name, code } => Head::ProcessIs {
            name: name.copy(alloc)?,
            code: code.copy(alloc)?,
        },
    })
}

/// Equal lines inside an item, in their order.
fn part_copies(alloc: Global, parts: &[Part]) -> Result<Items<Part>, AllocError>
    ensures { IfOk result (λ copies. copies ≡ parts.now) }
{
    let mut copies = Items::new(alloc);
    for part in parts {
        let body = body_copy(alloc, &part.body)?;
        copies.push(Part {
            line: part.line,
            body,
        })?;
    }
    Ok(copies)
}

/// An equal line inside an item.
fn body_copy(alloc: Global, body: &Body) -> Result<Body, AllocError>
    ensures { IfOk result (λ copy. copy ≡ body.now) }
{
    Ok(match body {
        Body::WordsAre(words) => Body::WordsAre(words.copy(alloc)?),
        Body::EmptyEntry => Body::EmptyEntry,
        Body::CapEntry { object, rights } => Body::CapEntry {
            object: object.copy(alloc)?,
            rights: rights.copy(alloc)?,
        },
        Body::AmplifyEntry { kind, check, give } => Body::AmplifyEntry {
            kind: kind.copy(alloc)?,
            check: check.copy(alloc)?,
            give: give.copy(alloc)?,
        },
        Body::CreateEntry { of, give } => Body::CreateEntry {
            of: of.copy(alloc)?,
            give: give.copy(alloc)?,
        },
        Body::ParamIs { kind, check, give } => Body::ParamIs {
            kind: kind.copy(alloc)?,
            check: check.copy(alloc)?,
            give: give.copy(alloc)?,
        },
        Body::LabelIs(label) => Body::LabelIs(label.copy(alloc)?),
        Body::StepIs(step) => Body::StepIs(written_copy(alloc, step)?),
    })
}

/// An equal instruction.
fn written_copy(alloc: Global, written: &Written) -> Result<Written, AllocError>
    ensures { IfOk result (λ copy. copy ≡ written.now) }
{
    Ok(match written {
        Written::Get { of, at, reg } => Written::Get {
            of: of.duplicate(alloc)?,
            at: *at,
            reg: *reg,
        },
        Written::Put { of, at, word } => Written::Put {
            of: of.duplicate(alloc)?,
            at: *at,
            word: *word,
        },
        Written::Add { of, word } => Written::Add {
            of: of.duplicate(alloc)?,
            word: *word,
        },
        Written::Length { of, reg } => Written::Length {
            of: of.duplicate(alloc)?,
            reg: *reg,
        },
        Written::Load { from, into } => Written::Load {
            from: from.duplicate(alloc)?,
            into: *into,
        },
        Written::Store { list, at, from } => Written::Store {
            list: list.duplicate(alloc)?,
            at: *at,
            from: *from,
        },
        Written::Append { list, from } => Written::Append {
            list: list.duplicate(alloc)?,
            from: *from,
        },
        Written::Erase { list, at } => Written::Erase {
            list: list.duplicate(alloc)?,
            at: *at,
        },
        Written::Drop { slot } => Written::Drop { slot: *slot },
        Written::Restrict { slot, keep } => Written::Restrict {
            slot: *slot,
            keep: keep.copy(alloc)?,
        },
        Written::Look { of, reg } => Written::Look {
            of: of.duplicate(alloc)?,
            reg: *reg,
        },
        Written::MakeTemplate { of, making, into } => Written::MakeTemplate {
            of: of.duplicate(alloc)?,
            making: making_copy(alloc, making)?,
            into: *into,
        },
        Written::Create { by, into } => Written::Create {
            by: by.duplicate(alloc)?,
            into: *into,
        },
        Written::Merge { with, cap, into } => Written::Merge {
            with: with.duplicate(alloc)?,
            cap: *cap,
            into: *into,
        },
        Written::Copy { of, into } => Written::Copy {
            of: of.duplicate(alloc)?,
            into: *into,
        },
        Written::Enter { proc, args, into } => Written::Enter {
            proc: proc.duplicate(alloc)?,
            args: *args,
            into: *into,
        },
        Written::Leave { give } => Written::Leave { give: *give },
        Written::P { of } => Written::P {
            of: of.duplicate(alloc)?,
        },
        Written::V { of } => Written::V {
            of: of.duplicate(alloc)?,
        },
        Written::Yield => Written::Yield,
        Written::SetReg { reg, to } => Written::SetReg { reg: *reg, to: *to },
        Written::AddReg { reg, by } => Written::AddReg { reg: *reg, by: *by },
        Written::Goto { to } => Written::Goto {
            to: to.copy(alloc)?,
        },
        Written::IfEq { left, right, to } => Written::IfEq {
            left: *left,
            right: *right,
            to: to.copy(alloc)?,
        },
        Written::IfLess { left, right, to } => Written::IfLess {
            left: *left,
            right: *right,
            to: to.copy(alloc)?,
        },
        Written::IfDenied { to } => Written::IfDenied {
            to: to.copy(alloc)?,
        },
    })
}

/// An equal kind of template.
fn making_copy(alloc: Global, making: &MakingText) -> Result<MakingText, AllocError>
    ensures { IfOk result (λ copy. copy ≡ making.now) }
{
    Ok(match making {
        MakingText::Amplify { check, give } => MakingText::Amplify {
            check: check.copy(alloc)?,
            give: give.copy(alloc)?,
        },
        MakingText::Create { give } => MakingText::Create {
            give: give.copy(alloc)?,
        },
    })
}
