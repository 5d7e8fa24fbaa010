//! The capability that a call is for (`docs/RULES.md`, "The order of refusals").

ghost use Rattle.std.specs.Prelude.{◌≡◌, ◌<◌, length};
ghost use Rattle.hk_model.specs.State.{process};
ghost use Rattle.hk_model.specs.Targets.{target};
ghost use Rattle.hk_calls.specs.Kinds.{is_wanted};

use crate::parts::Parts;
use hk_calls::Wanted;
use hk_merge::{allowed, held};
use hk_model::{Cap, Path, Proc, Refusal, Template};
use hk_rights::Rights;
use std::marker::PhantomData;

impl Parts {
    /// The capability at the end of a path: for an object of a type that is wanted, with all rights that are needed.
    ///
    /// After the refusals of the walk: `Empty`, `NotCap`, `WrongType`, `Denied`.
    pub(crate) fn target(
        &mut self,
        proc: Proc,
        path: &Path,
        wanted: Wanted,
        need: Rights,
    ) -> Result<Cap, Refusal>
        requires { proc.0 < length self.old.processes }
        ensures value { result ≡ target self.old (process self.old proc).current path.now (is_wanted wanted) need }
        ensures same { self.new ≡ self.old }
    {
        let _ = PhantomData::<Template>; // so that the check knows what an Entry holds
        let last = (path.len() - 1) as u8;
        let entry = self.walk(proc, path)?;
        let cap = held(entry, last)?;
        if !wanted.has(self.type_of(cap.name)) {
            return Err(Refusal::WrongType { step: last });
        }
        allowed(cap.rights, need, last)?;
        Ok(cap)
    }
}
