//! The instructions of a code (`docs/FORMATS.md`, "Grammar" and "Texts of calls").

ghost use Rattle.std.specs.Prelude.{◌≡◌};
ghost use Rattle.hk_format.specs.declared.syntax.Verb.TheVariants as verb;
ghost use Rattle.hk_format.specs.WrittenLines.{instruction_of, template_of, template_end};
ghost use Rattle.hk_script.specs.Lines.{rest};
ghost use Rattle.hk_script.specs.Outcomes.{Reads};

use crate::errors::LineError;
use crate::line::Line;
use hk_format::{MakingText, ParseCause, Verb, Written};
use hk_model::{Args, Items, Route};
use std::alloc::Global;

impl<'a> Line<'a> {
    /// What is left of the instruction that begins with this word.
    pub fn instruction(&mut self, alloc: Global, verb: Verb) -> Result<Written, LineError>
        ensures { Reads (λ x. x) result (rest self.new) (instruction_of verb (rest self.old)) }
    {
        match verb {
            Verb::GetData => self.get(alloc),
            Verb::PutData => self.put(alloc),
            Verb::AddData => self.add_data(alloc),
            Verb::Length => self.length(alloc),
            Verb::Load => self.load(alloc),
            Verb::Store => self.store(alloc),
            Verb::Append => self.append(alloc),
            Verb::Erase => self.erase(alloc),
            Verb::Drop => self.drop_slot(),
            Verb::Restrict => self.restrict(alloc),
            Verb::Look => self.look(alloc),
            Verb::Template => self.template(alloc),
            Verb::Create => self.create(alloc),
            Verb::Merge => self.merge(alloc),
            Verb::Copy => self.copy(alloc),
            Verb::Call => self.call(alloc),
            Verb::Return => self.give_back(),
            Verb::P => self.p(alloc),
            Verb::V => self.v(alloc),
            Verb::Yield => self.yield_now(),
            Verb::Set => self.set(),
            Verb::Add => self.add(),
            Verb::Goto => self.goto(alloc),
            Verb::IfEq => self.if_equal(alloc),
            Verb::IfLess => self.if_less(alloc),
            Verb::IfDenied => self.if_denied(alloc),
            _ => Err(LineError::Bad(ParseCause::UnknownWord)),
        }
    }

    /// `getdata PATH AT REG`
    fn get(&mut self, alloc: Global) -> Result<Written, LineError>
        ensures { Reads (λ x. x) result (rest self.new) (instruction_of verb.GetData (rest self.old)) }
    {
        let of = self.route(alloc)?;
        let at = self.operand()?;
        let reg = self.register()?;
        self.end()?;
        Ok(Written::Get { of, at, reg })
    }

    /// `putdata PATH AT WORD`
    fn put(&mut self, alloc: Global) -> Result<Written, LineError>
        ensures { Reads (λ x. x) result (rest self.new) (instruction_of verb.PutData (rest self.old)) }
    {
        let of = self.route(alloc)?;
        let at = self.operand()?;
        let word = self.operand()?;
        self.end()?;
        Ok(Written::Put { of, at, word })
    }

    /// `adddata PATH WORD`
    fn add_data(&mut self, alloc: Global) -> Result<Written, LineError>
        ensures { Reads (λ x. x) result (rest self.new) (instruction_of verb.AddData (rest self.old)) }
    {
        let of = self.route(alloc)?;
        let word = self.operand()?;
        self.end()?;
        Ok(Written::Add { of, word })
    }

    /// `length PATH REG`
    fn length(&mut self, alloc: Global) -> Result<Written, LineError>
        ensures { Reads (λ x. x) result (rest self.new) (instruction_of verb.Length (rest self.old)) }
    {
        let of = self.route(alloc)?;
        let reg = self.register()?;
        self.end()?;
        Ok(Written::Length { of, reg })
    }

    /// `load PATH INTO`
    fn load(&mut self, alloc: Global) -> Result<Written, LineError>
        ensures { Reads (λ x. x) result (rest self.new) (instruction_of verb.Load (rest self.old)) }
    {
        let from = self.route(alloc)?;
        let into = self.slot()?;
        self.end()?;
        Ok(Written::Load { from, into })
    }

    /// `store PATH AT FROM`
    fn store(&mut self, alloc: Global) -> Result<Written, LineError>
        ensures { Reads (λ x. x) result (rest self.new) (instruction_of verb.Store (rest self.old)) }
    {
        let list = self.route(alloc)?;
        let at = self.operand()?;
        let from = self.slot()?;
        self.end()?;
        Ok(Written::Store { list, at, from })
    }

    /// `append PATH FROM`
    fn append(&mut self, alloc: Global) -> Result<Written, LineError>
        ensures { Reads (λ x. x) result (rest self.new) (instruction_of verb.Append (rest self.old)) }
    {
        let list = self.route(alloc)?;
        let from = self.slot()?;
        self.end()?;
        Ok(Written::Append { list, from })
    }

    /// `erase PATH AT`
    fn erase(&mut self, alloc: Global) -> Result<Written, LineError>
        ensures { Reads (λ x. x) result (rest self.new) (instruction_of verb.Erase (rest self.old)) }
    {
        let list = self.route(alloc)?;
        let at = self.operand()?;
        self.end()?;
        Ok(Written::Erase { list, at })
    }

    /// `drop SLOT`
    fn drop_slot(&mut self) -> Result<Written, LineError>
        ensures { Reads (λ x. x) result (rest self.new) (instruction_of verb.Drop (rest self.old)) }
    {
        let slot = self.slot()?;
        self.end()?;
        Ok(Written::Drop { slot })
    }

    /// `restrict SLOT RIGHTS`
    fn restrict(&mut self, alloc: Global) -> Result<Written, LineError>
        ensures { Reads (λ x. x) result (rest self.new) (instruction_of verb.Restrict (rest self.old)) }
    {
        let slot = self.slot()?;
        let keep = self.rights(alloc)?;
        self.end()?;
        Ok(Written::Restrict { slot, keep })
    }

    /// `look PATH REG`
    fn look(&mut self, alloc: Global) -> Result<Written, LineError>
        ensures { Reads (λ x. x) result (rest self.new) (instruction_of verb.Look (rest self.old)) }
    {
        let of = self.route(alloc)?;
        let reg = self.register()?;
        self.end()?;
        Ok(Written::Look { of, reg })
    }

    /// `create PATH INTO`
    fn create(&mut self, alloc: Global) -> Result<Written, LineError>
        ensures { Reads (λ x. x) result (rest self.new) (instruction_of verb.Create (rest self.old)) }
    {
        let by = self.route(alloc)?;
        let into = self.slot()?;
        self.end()?;
        Ok(Written::Create { by, into })
    }

    /// `merge PATH CAP INTO`
    fn merge(&mut self, alloc: Global) -> Result<Written, LineError>
        ensures { Reads (λ x. x) result (rest self.new) (instruction_of verb.Merge (rest self.old)) }
    {
        let with = self.route(alloc)?;
        let cap = self.slot()?;
        let into = self.slot()?;
        self.end()?;
        Ok(Written::Merge { with, cap, into })
    }

    /// `copy PATH INTO`
    fn copy(&mut self, alloc: Global) -> Result<Written, LineError>
        ensures { Reads (λ x. x) result (rest self.new) (instruction_of verb.Copy (rest self.old)) }
    {
        let of = self.route(alloc)?;
        let into = self.slot()?;
        self.end()?;
        Ok(Written::Copy { of, into })
    }

    /// `p PATH`
    fn p(&mut self, alloc: Global) -> Result<Written, LineError>
        ensures { Reads (λ x. x) result (rest self.new) (instruction_of verb.P (rest self.old)) }
    {
        let of = self.route(alloc)?;
        self.end()?;
        Ok(Written::P { of })
    }

    /// `v PATH`
    fn v(&mut self, alloc: Global) -> Result<Written, LineError>
        ensures { Reads (λ x. x) result (rest self.new) (instruction_of verb.V (rest self.old)) }
    {
        let of = self.route(alloc)?;
        self.end()?;
        Ok(Written::V { of })
    }

    /// `yield`
    fn yield_now(&mut self) -> Result<Written, LineError>
        ensures { Reads (λ x. x) result (rest self.new) (instruction_of verb.Yield (rest self.old)) }
    {
        self.end()?;
        Ok(Written::Yield)
    }

    /// `set REG OP`
    fn set(&mut self) -> Result<Written, LineError>
        ensures { Reads (λ x. x) result (rest self.new) (instruction_of verb.Set (rest self.old)) }
    {
        let reg = self.register()?;
        let to = self.operand()?;
        self.end()?;
        Ok(Written::SetReg { reg, to })
    }

    /// `add REG OP`
    fn add(&mut self) -> Result<Written, LineError>
        ensures { Reads (λ x. x) result (rest self.new) (instruction_of verb.Add (rest self.old)) }
    {
        let reg = self.register()?;
        let by = self.operand()?;
        self.end()?;
        Ok(Written::AddReg { reg, by })
    }

    /// `goto L`
    fn goto(&mut self, alloc: Global) -> Result<Written, LineError>
        ensures { Reads (λ x. x) result (rest self.new) (instruction_of verb.Goto (rest self.old)) }
    {
        let to = self.word(alloc)?;
        self.end()?;
        Ok(Written::Goto { to })
    }

    /// `ifeq OP OP L`
    fn if_equal(&mut self, alloc: Global) -> Result<Written, LineError>
        ensures { Reads (λ x. x) result (rest self.new) (instruction_of verb.IfEq (rest self.old)) }
    {
        let left = self.operand()?;
        let right = self.operand()?;
        let to = self.word(alloc)?;
        self.end()?;
        Ok(Written::IfEq { left, right, to })
    }

    /// `iflt OP OP L`
    fn if_less(&mut self, alloc: Global) -> Result<Written, LineError>
        ensures { Reads (λ x. x) result (rest self.new) (instruction_of verb.IfLess (rest self.old)) }
    {
        let left = self.operand()?;
        let right = self.operand()?;
        let to = self.word(alloc)?;
        self.end()?;
        Ok(Written::IfLess { left, right, to })
    }

    /// `ifdenied L`
    fn if_denied(&mut self, alloc: Global) -> Result<Written, LineError>
        ensures { Reads (λ x. x) result (rest self.new) (instruction_of verb.IfDenied (rest self.old)) }
    {
        let to = self.word(alloc)?;
        self.end()?;
        Ok(Written::IfDenied { to })
    }

    /// `template PATH KIND .. INTO`
    fn template(&mut self, alloc: Global) -> Result<Written, LineError>
        ensures { Reads (λ x. x) result (rest self.new) (instruction_of verb.Template (rest self.old)) }
    {
        let of = self.route(alloc)?;
        let kind = self.verb()?;
        self.template_of(alloc, of, kind)
    }

    /// `amplify CHECK GIVE INTO` or `create GIVE INTO`
    fn template_of(&mut self, alloc: Global, of: Route, kind: Verb) -> Result<Written, LineError>
        ensures { Reads (λ x. x) result (rest self.new) (template_of of kind (rest self.old)) }
    {
        match kind {
            Verb::Amplify => {
                let check = self.boxed_rights(alloc)?;
                let give = self.boxed_rights(alloc)?;
                self.template_end(of, MakingText::Amplify { check, give })
            }
            Verb::Create => {
                let give = self.boxed_rights(alloc)?;
                self.template_end(of, MakingText::Create { give })
            }
            _ => Err(LineError::Bad(ParseCause::UnknownWord)),
        }
    }

    /// The slot behind the rights of a template.
    fn template_end(&mut self, of: Route, making: MakingText) -> Result<Written, LineError>
        ensures { Reads (λ x. x) result (rest self.new) (template_end of making (rest self.old)) }
    {
        let into = self.slot()?;
        self.end()?;
        Ok(Written::MakeTemplate { of, making, into })
    }

    /// `call PATH ARG.. INTO`, with at most eight arguments
    fn call(&mut self, alloc: Global) -> Result<Written, LineError>
        ensures { Reads (λ x. x) result (rest self.new) (instruction_of verb.Call (rest self.old)) }
    {
        let proc = self.route(alloc)?;
        let mut args = Items::new(alloc);
        let mut into = self.slot()?;
        while !self.is_read() {
            let next = self.slot()?;
            if args.len() == 8 {
                return Err(LineError::Bad(ParseCause::OutOfRange));
            }
            args.push(into)?;
            into = next;
        }
        match Args::new(args.as_slice()) {
            Some(args) => Ok(Written::Enter { proc, args, into }),
            None => Err(LineError::Bad(ParseCause::OutOfRange)),
        }
    }

    /// `return` or `return SLOT`
    fn give_back(&mut self) -> Result<Written, LineError>
        ensures { Reads (λ x. x) result (rest self.new) (instruction_of verb.Return (rest self.old)) }
    {
        if self.is_read() {
            return Ok(Written::Leave { give: None });
        }
        let give = self.slot()?;
        self.end()?;
        Ok(Written::Leave { give: Some(give) })
    }
}
