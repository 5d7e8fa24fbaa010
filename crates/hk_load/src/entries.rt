//! Entry lines and parameter lines (`docs/FORMATS.md`, "Grammar" and "Loading").

ghost use Rattle.std.specs.Prelude.{◌≡◌};
ghost use Rattle.hk_format.specs.declared.syntax.Body.TheVariants.{CapEntry, AmplifyEntry, CreateEntry};
ghost use Rattle.hk_format.specs.Loading.{entry_meant, param_of};
ghost use Rattle.hk_format.specs.Outcomes.{Gives};

use crate::errors::LineError;
use crate::names::Declared;
use crate::rights::rights;
use hk_format::{Body, LoadCause};
use hk_model::{BoxedText, Cap, Entry, Param, Template, Text};

impl<'a> Declared<'a> {
    /// The entry of a line. UnknownName and BadRights come from the left; WrongPart where the line is
    /// that of no entry.
    pub fn entry(&self, body: &Body) -> Result<Entry, LineError>
        ensures { Gives (λ x. x) result (entry_meant self.now body.now) }
    {
        match body {
            Body::CapEntry { object, rights } => self.held(object, rights),
            Body::AmplifyEntry { kind, check, give } => self.amplify(kind, check, give),
            Body::CreateEntry { of, give } => self.create(of, give),
            Body::EmptyEntry => Ok(Entry::Empty),
            _ => Err(LineError::Bad(LoadCause::WrongPart)),
        }
    }

    /// `cap OBJECT RIGHTS`
    fn held(&self, object: &Text, held: &Text) -> Result<Entry, LineError>
        ensures { Gives (λ x. x) result (entry_meant self.now (CapEntry object.now held.now)) }
    {
        let name = self.object(object)?;
        let rights = rights(held)?;
        Ok(Entry::Held(Cap { name, rights }))
    }

    /// `amplify KIND CHECK GIVE`
    fn amplify(&self, kind: &Text, check: &BoxedText, give: &BoxedText) -> Result<Entry, LineError>
        ensures { Gives (λ x. x) result (entry_meant self.now (AmplifyEntry kind.now check.now give.now)) }
    {
        let of = self.kind(kind)?;
        let check = rights(check.as_text())?;
        let give = rights(give.as_text())?;
        Ok(Entry::Form(Template::Amplify { of, check, give }))
    }

    /// `create TYPE GIVE`
    fn create(&self, of: &Text, give: &BoxedText) -> Result<Entry, LineError>
        ensures { Gives (λ x. x) result (entry_meant self.now (CreateEntry of.now give.now)) }
    {
        let of = self.type_named(of)?;
        let give = rights(give.as_text())?;
        Ok(Entry::Form(Template::Create { of, give }))
    }

    /// `param KIND CHECK GIVE`
    pub fn param(
        &self,
        kind: &Text,
        check: &BoxedText,
        give: &BoxedText,
    ) -> Result<Param, LineError>
        ensures { Gives (λ x. x) result (param_of self.now kind.now check.now give.now) }
    {
        let of = self.kind(kind)?;
        let check = rights(check.as_text())?;
        let give = rights(give.as_text())?;
        Ok(Param { of, check, give })
    }
}
