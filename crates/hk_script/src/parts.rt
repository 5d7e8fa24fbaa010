//! The lines inside items (`docs/FORMATS.md`, "Grammar").

ghost use Rattle.std.specs.Prelude.{◌≡◌};
ghost use Rattle.hk_format.specs.declared.syntax.Verb.TheVariants as verb;
ghost use Rattle.hk_format.specs.Grammar.{part_line, part_of, body_of, object_part, procedure_part, code_part, entry_of};
ghost use Rattle.hk_script.specs.Lines.{rest};
ghost use Rattle.hk_script.specs.Outcomes.{Reads};

use crate::errors::LineError;
use crate::line::Line;
use hk_format::{Body, Head, ParseCause, Verb};
use hk_model::Items;
use std::alloc::Global;

impl<'a> Line<'a> {
    /// A line inside the item with this head: None is its end.
    pub fn part(&mut self, alloc: Global, head: &Head) -> Result<Option<Body>, LineError>
        ensures { Reads (λ x. x) result (rest self.new) (part_line head.now (rest self.old)) }
    {
        match self.verb()? {
            Verb::End => {
                self.end()?;
                Ok(None)
            }
            verb => Ok(Some(self.body(alloc, head, verb)?)),
        }
    }

    /// What is left of the line of an item that begins with this word.
    fn body(&mut self, alloc: Global, head: &Head, verb: Verb) -> Result<Body, LineError>
        ensures { Reads (λ x. x) result (rest self.new) (body_of head.now verb (rest self.old)) }
    {
        match head {
            Head::ObjectIs { .. } => self.object_part(alloc, verb),
            Head::ProcedureIs { .. } => self.procedure_part(alloc, verb),
            Head::CodeIs { .. } => self.code_part(alloc, verb),
            Head::ProcessIs { .. } => self.entry(alloc, verb),
            _ => Err(LineError::Bad(ParseCause::UnknownWord)),
        }
    }

    /// A line of an object: words or an entry.
    fn object_part(&mut self, alloc: Global, verb: Verb) -> Result<Body, LineError>
        ensures { Reads (λ x. x) result (rest self.new) (object_part verb (rest self.old)) }
    {
        match verb {
            Verb::Words => self.words(alloc),
            _ => self.entry(alloc, verb),
        }
    }

    /// A line of a procedure: a parameter or an entry.
    fn procedure_part(&mut self, alloc: Global, verb: Verb) -> Result<Body, LineError>
        ensures { Reads (λ x. x) result (rest self.new) (procedure_part verb (rest self.old)) }
    {
        match verb {
            Verb::Param => self.param(alloc),
            _ => self.entry(alloc, verb),
        }
    }

    /// A line of a code: a label or an instruction.
    fn code_part(&mut self, alloc: Global, verb: Verb) -> Result<Body, LineError>
        ensures { Reads (λ x. x) result (rest self.new) (code_part verb (rest self.old)) }
    {
        match verb {
            Verb::Label => self.label(alloc),
            _ => Ok(Body::StepIs(self.instruction(alloc, verb)?)),
        }
    }

    /// An entry line.
    fn entry(&mut self, alloc: Global, verb: Verb) -> Result<Body, LineError>
        ensures { Reads (λ x. x) result (rest self.new) (entry_of verb (rest self.old)) }
    {
        match verb {
            Verb::Empty => {
                self.end()?;
                Ok(Body::EmptyEntry)
            }
            Verb::Cap => self.cap(alloc),
            Verb::Amplify => self.amplify(alloc),
            Verb::Create => self.create_entry(alloc),
            _ => Err(LineError::Bad(ParseCause::UnknownWord)),
        }
    }

    /// `cap OBJECT RIGHTS`
    fn cap(&mut self, alloc: Global) -> Result<Body, LineError>
        ensures { Reads (λ x. x) result (rest self.new) (entry_of verb.Cap (rest self.old)) }
    {
        let object = self.type_text(alloc)?;
        let rights = self.rights(alloc)?;
        self.end()?;
        Ok(Body::CapEntry { object, rights })
    }

    /// `amplify KIND CHECK GIVE`
    fn amplify(&mut self, alloc: Global) -> Result<Body, LineError>
        ensures { Reads (λ x. x) result (rest self.new) (entry_of verb.Amplify (rest self.old)) }
    {
        let kind = self.type_text(alloc)?;
        let check = self.boxed_rights(alloc)?;
        let give = self.boxed_rights(alloc)?;
        self.end()?;
        Ok(Body::AmplifyEntry { kind, check, give })
    }

    /// `create TYPE RIGHTS`
    fn create_entry(&mut self, alloc: Global) -> Result<Body, LineError>
        ensures { Reads (λ x. x) result (rest self.new) (entry_of verb.Create (rest self.old)) }
    {
        let of = self.type_text(alloc)?;
        let give = self.boxed_rights(alloc)?;
        self.end()?;
        Ok(Body::CreateEntry { of, give })
    }

    /// `param KIND CHECK GIVE`
    fn param(&mut self, alloc: Global) -> Result<Body, LineError>
        ensures { Reads (λ x. x) result (rest self.new) (procedure_part verb.Param (rest self.old)) }
    {
        let kind = self.type_text(alloc)?;
        let check = self.boxed_rights(alloc)?;
        let give = self.boxed_rights(alloc)?;
        self.end()?;
        Ok(Body::ParamIs { kind, check, give })
    }

    /// `label L`
    fn label(&mut self, alloc: Global) -> Result<Body, LineError>
        ensures { Reads (λ x. x) result (rest self.new) (code_part verb.Label (rest self.old)) }
    {
        let label = self.word(alloc)?;
        self.end()?;
        Ok(Body::LabelIs(label))
    }

    /// `words N N ..`, one number at least
    fn words(&mut self, alloc: Global) -> Result<Body, LineError>
        ensures { Reads (λ x. x) result (rest self.new) (object_part verb.Words (rest self.old)) }
    {
        let mut words = Items::new(alloc);
        words.push(self.number()?)?;
        while !self.is_read() {
            words.push(self.number()?)?;
        }
        Ok(Body::WordsAre(words))
    }
}
