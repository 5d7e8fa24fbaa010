//! The instructions of a code (`docs/FORMATS.md`, "Texts of calls" and "Loading").

ghost use Rattle.std.specs.Prelude.{◌≡◌, List};
ghost use Rattle.hk_format.specs.declared.syntax.Written.TheVariants as written;
ghost use Rattle.hk_format.specs.Loading.{Label, instr_of, making_of};
ghost use Rattle.hk_format.specs.Outcomes.{Gives};

use crate::errors::LineError;
use crate::labels::Labels;
use crate::rights::rights;
use hk_format::{MakingText, Written};
use hk_model::{Instr, Making, Operand, Route, Slot, Text};

impl Labels {
    /// The instruction that a line says. UnknownName and BadRights come from the left.
    pub fn instruction(&self, written: Written) -> Result<Instr, LineError>
        ensures { Gives (λ x. x) result (instr_of self.now written) }
    {
        match written {
            Written::Get { of, at, reg } => Ok(Instr::Get { of, at, reg }),
            Written::Put { of, at, word } => Ok(Instr::Put { of, at, word }),
            Written::Add { of, word } => Ok(Instr::Add { of, word }),
            Written::Length { of, reg } => Ok(Instr::Length { of, reg }),
            Written::Load { from, into } => Ok(Instr::Load { from, into }),
            Written::Store { list, at, from } => Ok(Instr::Store { list, at, from }),
            Written::Append { list, from } => Ok(Instr::Append { list, from }),
            Written::Erase { list, at } => Ok(Instr::Erase { list, at }),
            Written::Drop { slot } => Ok(Instr::Drop { slot }),
            Written::Restrict { slot, keep } => restrict(slot, &keep),
            Written::Look { of, reg } => Ok(Instr::Look { of, reg }),
            Written::MakeTemplate { of, making, into } => template(of, &making, into),
            Written::Create { by, into } => Ok(Instr::Create { by, into }),
            Written::Merge { with, cap, into } => Ok(Instr::Merge { with, cap, into }),
            Written::Copy { of, into } => Ok(Instr::Copy { of, into }),
            Written::Enter { proc, args, into } => Ok(Instr::Enter { proc, args, into }),
            Written::Leave { give } => Ok(Instr::Leave { give }),
            Written::P { of } => Ok(Instr::P { of }),
            Written::V { of } => Ok(Instr::V { of }),
            Written::Yield => Ok(Instr::Yield),
            Written::SetReg { reg, to } => Ok(Instr::SetReg { reg, to }),
            Written::AddReg { reg, by } => Ok(Instr::AddReg { reg, by }),
            Written::Goto { to } => self.goto(&to),
            Written::IfEq { left, right, to } => self.if_equal(left, right, &to),
            Written::IfLess { left, right, to } => self.if_less(left, right, &to),
            Written::IfDenied { to } => self.if_denied(&to),
        }
    }

    /// `goto L`
    fn goto(&self, to: &Text) -> Result<Instr, LineError>
        ensures { Gives (λ x. x) result (instr_of self.now (written.Goto to.now)) }
    {
        let to = self.target(to)?;
        Ok(Instr::Goto { to })
    }

    /// `ifeq OP OP L`
    fn if_equal(&self, left: Operand, right: Operand, to: &Text) -> Result<Instr, LineError>
        ensures { Gives (λ x. x) result (instr_of self.now (written.IfEq left right to.now)) }
    {
        let to = self.target(to)?;
        Ok(Instr::IfEq { left, right, to })
    }

    /// `iflt OP OP L`
    fn if_less(&self, left: Operand, right: Operand, to: &Text) -> Result<Instr, LineError>
        ensures { Gives (λ x. x) result (instr_of self.now (written.IfLess left right to.now)) }
    {
        let to = self.target(to)?;
        Ok(Instr::IfLess { left, right, to })
    }

    /// `ifdenied L`
    fn if_denied(&self, to: &Text) -> Result<Instr, LineError>
        ensures { Gives (λ x. x) result (instr_of self.now (written.IfDenied to.now)) }
    {
        let to = self.target(to)?;
        Ok(Instr::IfDenied { to })
    }
}

/// `restrict SLOT RIGHTS`
fn restrict(slot: Slot, keep: &Text) -> Result<Instr, LineError>
    ensures { (labels : List Label) → Gives (λ x. x) result (instr_of labels (written.Restrict slot keep.now)) }
{
    let keep = rights(keep)?;
    Ok(Instr::Restrict { slot, keep })
}

/// `template PATH amplify CHECK GIVE INTO`, or `template PATH create GIVE INTO`
fn template(of: Route, making: &MakingText, into: Slot) -> Result<Instr, LineError>
    ensures { (labels : List Label) → Gives (λ x. x) result (instr_of labels (written.MakeTemplate of making.now into)) }
{
    let making = making_of(making)?;
    Ok(Instr::MakeTemplate { of, making, into })
}

/// The kind of template that an instruction makes.
fn making_of(making: &MakingText) -> Result<Making, LineError>
    ensures { Gives (λ x. x) result (making_of making.now) }
{
    match making {
        MakingText::Amplify { check, give } => {
            let check = rights(check.as_text())?;
            let give = rights(give.as_text())?;
            Ok(Making::Amplify { check, give })
        }
        MakingText::Create { give } => {
            let give = rights(give.as_text())?;
            Ok(Making::Create { give })
        }
    }
}
