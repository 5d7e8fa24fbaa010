//! The lines between items (`docs/FORMATS.md`, "Grammar").

ghost use Rattle.std.specs.Prelude.{◌≡◌};
ghost use Rattle.hk_format.specs.declared.syntax.Verb.TheVariants as verb;
ghost use Rattle.hk_format.specs.Grammar.{header, head_line, head_of, head_name};
ghost use Rattle.hk_format.specs.Spelling.{has_parts};
ghost use Rattle.hk_script.specs.Lines.{rest};
ghost use Rattle.hk_script.specs.Outcomes.{Reads};

use crate::errors::LineError;
use crate::line::Line;
use hk_format::{Head, ParseCause, Verb};
use hk_model::limits::{EVENT_LIMIT, TOKEN_LIMIT};
use std::alloc::Global;

impl<'a> Line<'a> {
    /// `hydra 1`
    pub fn header(&mut self) -> Result<(), LineError>
        ensures { Reads (λ x. x) result (rest self.new) (header (rest self.old)) }
    {
        match self.verb()? {
            Verb::Hydra => {
                self.number_in(1, 1)?;
                self.end()
            }
            _ => Err(LineError::Bad(ParseCause::UnknownWord)),
        }
    }

    /// The head of an item.
    pub fn head(&mut self, alloc: Global) -> Result<Head, LineError>
        ensures { Reads (λ x. x) result (rest self.new) (head_line (rest self.old)) }
    {
        let verb = self.verb()?;
        self.head_of(alloc, verb)
    }

    /// What is left of the head that begins with this word.
    fn head_of(&mut self, alloc: Global, verb: Verb) -> Result<Head, LineError>
        ensures { Reads (λ x. x) result (rest self.new) (head_of verb (rest self.old)) }
    {
        match verb {
            Verb::Limit => self.limit(),
            Verb::Type => self.type_head(alloc),
            Verb::Object => self.object(alloc),
            Verb::Semaphore => self.semaphore(alloc),
            Verb::Procedure => self.procedure(alloc),
            Verb::Code => self.code(alloc),
            Verb::Process => self.process(alloc),
            _ => Err(LineError::Bad(ParseCause::UnknownWord)),
        }
    }

    /// `limit N`
    fn limit(&mut self) -> Result<Head, LineError>
        ensures { Reads (λ x. x) result (rest self.new) (head_of verb.Limit (rest self.old)) }
    {
        let n = self.number_in(1, EVENT_LIMIT)?;
        self.end()?;
        Ok(Head::LimitIs(n))
    }

    /// `type NAME`
    fn type_head(&mut self, alloc: Global) -> Result<Head, LineError>
        ensures { Reads (λ x. x) result (rest self.new) (head_of verb.Type (rest self.old)) }
    {
        let name = self.name(alloc)?;
        self.end()?;
        Ok(Head::TypeIs { name })
    }

    /// `object NAME TYPE`
    fn object(&mut self, alloc: Global) -> Result<Head, LineError>
        ensures { Reads (λ x. x) result (rest self.new) (head_of verb.Object (rest self.old)) }
    {
        let name = self.name(alloc)?;
        let of = self.type_text(alloc)?;
        self.end()?;
        Ok(Head::ObjectIs { name, of })
    }

    /// `semaphore NAME N`
    fn semaphore(&mut self, alloc: Global) -> Result<Head, LineError>
        ensures { Reads (λ x. x) result (rest self.new) (head_of verb.Semaphore (rest self.old)) }
    {
        let name = self.name(alloc)?;
        let count = self.number_in(0, TOKEN_LIMIT)?;
        self.end()?;
        Ok(Head::SemaphoreIs { name, count })
    }

    /// `procedure NAME CODE`
    fn procedure(&mut self, alloc: Global) -> Result<Head, LineError>
        ensures { Reads (λ x. x) result (rest self.new) (head_of verb.Procedure (rest self.old)) }
    {
        let name = self.name(alloc)?;
        let code = self.word(alloc)?;
        self.end()?;
        Ok(Head::ProcedureIs { name, code })
    }

    /// `code NAME`
    fn code(&mut self, alloc: Global) -> Result<Head, LineError>
        ensures { Reads (λ x. x) result (rest self.new) (head_of verb.Code (rest self.old)) }
    {
        let name = self.name(alloc)?;
        self.end()?;
        Ok(Head::CodeIs { name })
    }

    /// `process NAME CODE`
    fn process(&mut self, alloc: Global) -> Result<Head, LineError>
        ensures { Reads (λ x. x) result (rest self.new) (head_of verb.Process (rest self.old)) }
    {
        let name = self.name(alloc)?;
        let code = self.word(alloc)?;
        self.end()?;
        Ok(Head::ProcessIs { name, code })
    }
}

/// Whether an item with this head has lines of its own.
pub fn has_parts(head: &Head) -> bool
    ensures { result ≡ has_parts head.now }
{
    match head {
        Head::LimitIs(_) => false,
        Head::TypeIs { .. } => false,
        Head::SemaphoreIs { .. } => false,
        _ => true,
    }
}

/// The name that a head gives.
pub fn name_of(head: &Head) -> &str
    ensures { result.now ≡ head_name head.now }
{
    match head {
        Head::LimitIs(_) => "",
        Head::TypeIs { name } => name.as_str(),
        Head::ObjectIs { name, .. } => name.as_str(),
        Head::SemaphoreIs { name, .. } => name.as_str(),
        Head::ProcedureIs { name, .. } => name.as_str(),
        Head::CodeIs { name } => name.as_str(),
        Head::ProcessIs { name, .. } => name.as_str(),
    }
}
