//! The next text of an audit line, in the form that is wanted (`docs/FORMATS.md`, "Audit lines and
//! records"): Missing where no text is left, Extra where one is left at the end.

ghost use Rattle.std.specs.Prelude.{◌≡◌, ◌<◌, Ok, Err, IfOk, IfErr};
ghost use Rattle.hk_format.specs.Reading.{end, taken, wanted};
ghost use Rattle.hk_format.specs.Forms.{as_verb, as_word, as_number_below};
ghost use Rattle.hk_format.specs.LineReading.{as_path, as_any_slot, as_rights_set, as_right, as_word32, as_full};
ghost use Rattle.hk_model.specs.Limits.{inc_bound};
ghost use Rattle.hk_audit.specs.Left.{rest};

use crate::forms;
use crate::parts::Parts;
use hk_format::{ParseCause, Verb};
use hk_model::{Path, Slot, What8};
use hk_rights::{Right, Rights};

impl<'a> Parts<'a> {
    /// A number below the bound.
    pub fn number_below(&mut self, bound: u64) -> Result<u64, ParseCause>
        ensures value { wanted (as_number_below bound) (rest self.old) ≡ taken result (rest self.new) }
        ensures below { IfOk result (λ n. n < bound) }
    {
        forms::number_below(self.next()?, bound)
    }

    /// The number of an incarnation.
    pub fn inc(&mut self) -> Result<u64, ParseCause>
        ensures { wanted (as_number_below inc_bound) (rest self.old) ≡ taken result (rest self.new) }
    {
        forms::inc(self.next()?)
    }

    /// A word of 32 bits.
    pub fn word32(&mut self) -> Result<u32, ParseCause>
        ensures { wanted as_word32 (rest self.old) ≡ taken result (rest self.new) }
    {
        forms::word32(self.next()?)
    }

    /// A slot of a call.
    pub fn slot(&mut self) -> Result<Slot, ParseCause>
        ensures { wanted as_any_slot (rest self.old) ≡ taken result (rest self.new) }
    {
        forms::slot(self.next()?)
    }

    /// A path.
    pub fn path(&mut self) -> Result<Path, ParseCause>
        ensures { wanted as_path (rest self.old) ≡ taken result (rest self.new) }
    {
        forms::path(self.next()?)
    }

    /// A set of rights.
    pub fn rights(&mut self) -> Result<Rights, ParseCause>
        ensures { wanted as_rights_set (rest self.old) ≡ taken result (rest self.new) }
    {
        forms::rights(self.next()?)
    }

    /// A right.
    pub fn right(&mut self) -> Result<Right, ParseCause>
        ensures { wanted as_right (rest self.old) ≡ taken result (rest self.new) }
    {
        forms::right(self.next()?)
    }

    /// A word.
    pub fn word(&mut self) -> Result<&'a [u8], ParseCause>
        ensures ok { IfOk result (λ word. wanted as_word (rest self.old) ≡ Ok (word.now, rest self.new)) }
        ensures refused { IfErr result (λ cause. wanted as_word (rest self.old) ≡ Err cause) }
    {
        forms::word(self.next()?)
    }

    /// The word of a verb.
    pub fn verb(&mut self) -> Result<Verb, ParseCause>
        ensures { wanted as_verb (rest self.old) ≡ taken result (rest self.new) }
    {
        forms::verb(self.next()?)
    }

    /// What there is no room for.
    pub fn full(&mut self) -> Result<What8, ParseCause>
        ensures { wanted as_full (rest self.old) ≡ taken result (rest self.new) }
    {
        forms::full(self.next()?)
    }

    /// The end of the line.
    pub fn end(&mut self) -> Result<(), ParseCause>
        ensures { end tt (rest self.old) ≡ taken result (rest self.new) }
    {
        if self.is_read() {
            Ok(())
        } else {
            Err(ParseCause::Extra)
        }
    }
}
