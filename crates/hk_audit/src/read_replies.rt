//! The replies of audit lines (`docs/FORMATS.md`, "Audit lines and records").

ghost use Rattle.std.specs.Prelude.{◌≡◌};
ghost use Rattle.hk_model.specs.declared.calls.Refusal.TheVariants as refused;
ghost use Rattle.hk_format.specs.Reading.{end, taken, wanted};
ghost use Rattle.hk_format.specs.Forms.{as_number_below};
ghost use Rattle.hk_format.specs.LineReading.{denied, full_reply, refusal_of, reply_line, reply_of, stepped, word_reply};
ghost use Rattle.hk_audit.specs.Left.{rest};
ghost use Rattle.hk_audit.specs.Refusals.{without_step};

use crate::parts::Parts;
use hk_format::ParseCause;
use hk_model::{Refusal, Reply};

impl<'a> Parts<'a> {
    /// What stands behind the arrow.
    pub fn reply(&mut self) -> Result<Reply, ParseCause>
        ensures { reply_line (rest self.old) ≡ taken result (rest self.new) }
    {
        let word = self.word()?;
        self.reply_of(word)
    }

    /// The reply that begins with this word.
    fn reply_of(&mut self, word: &[u8]) -> Result<Reply, ParseCause>
        ensures { reply_of word.now (rest self.old) ≡ taken result (rest self.new) }
    {
        if word == b"done".as_slice() {
            return self.reply_ends(Reply::Done);
        }
        if word == b"word".as_slice() {
            return self.word_reply();
        }
        if word == b"waits".as_slice() {
            return self.reply_ends(Reply::Waits);
        }
        self.refusal(word)
    }

    /// `word N`, behind its first word.
    fn word_reply(&mut self) -> Result<Reply, ParseCause>
        ensures { word_reply (rest self.old) ≡ taken result (rest self.new) }
    {
        let n = self.word32()?;
        self.end()?;
        Ok(Reply::Word(n))
    }

    /// The refusal that begins with this word.
    fn refusal(&mut self, word: &[u8]) -> Result<Reply, ParseCause>
        ensures { refusal_of word.now (rest self.old) ≡ taken result (rest self.new) }
    {
        if word == b"range".as_slice() {
            return self.range();
        }
        if word == b"empty".as_slice() {
            return self.empty();
        }
        if word == b"notcap".as_slice() {
            return self.not_cap();
        }
        if word == b"denied".as_slice() {
            return self.denied();
        }
        if word == b"wrongtype".as_slice() {
            return self.wrong_type();
        }
        if word == b"badtemplate".as_slice() {
            return self.bad_template();
        }
        self.refusal_without_step(word)
    }

    /// A refusal that has no step, by its first word.
    fn refusal_without_step(&mut self, word: &[u8]) -> Result<Reply, ParseCause>
        ensures { without_step word.now (rest self.old) ≡ taken result (rest self.new) }
    {
        if word == b"count".as_slice() {
            return self.reply_ends(Reply::No(Refusal::Count));
        }
        if word == b"full".as_slice() {
            return self.full_reply();
        }
        if word == b"deep".as_slice() {
            return self.reply_ends(Reply::No(Refusal::Deep));
        }
        Err(ParseCause::UnknownWord)
    }

    /// `range STEP`, behind its first word.
    fn range(&mut self) -> Result<Reply, ParseCause>
        ensures { stepped (λ step. refused.Range step) (rest self.old) ≡ taken result (rest self.new) }
    {
        let step = self.step()?;
        self.end()?;
        Ok(Reply::No(Refusal::Range { step }))
    }

    /// `empty STEP`, behind its first word.
    fn empty(&mut self) -> Result<Reply, ParseCause>
        ensures { stepped (λ step. refused.Empty step) (rest self.old) ≡ taken result (rest self.new) }
    {
        let step = self.step()?;
        self.end()?;
        Ok(Reply::No(Refusal::Empty { step }))
    }

    /// `notcap STEP`, behind its first word.
    fn not_cap(&mut self) -> Result<Reply, ParseCause>
        ensures { stepped (λ step. refused.NotCap step) (rest self.old) ≡ taken result (rest self.new) }
    {
        let step = self.step()?;
        self.end()?;
        Ok(Reply::No(Refusal::NotCap { step }))
    }

    /// `denied STEP RIGHT`, behind its first word.
    fn denied(&mut self) -> Result<Reply, ParseCause>
        ensures { denied (rest self.old) ≡ taken result (rest self.new) }
    {
        let step = self.step()?;
        let right = self.right()?;
        self.end()?;
        Ok(Reply::No(Refusal::Denied { step, right }))
    }

    /// `wrongtype STEP`, behind its first word.
    fn wrong_type(&mut self) -> Result<Reply, ParseCause>
        ensures { stepped (λ step. refused.WrongType step) (rest self.old) ≡ taken result (rest self.new) }
    {
        let step = self.step()?;
        self.end()?;
        Ok(Reply::No(Refusal::WrongType { step }))
    }

    /// `badtemplate STEP`, behind its first word.
    fn bad_template(&mut self) -> Result<Reply, ParseCause>
        ensures { stepped (λ step. refused.BadTemplate step) (rest self.old) ≡ taken result (rest self.new) }
    {
        let step = self.step()?;
        self.end()?;
        Ok(Reply::No(Refusal::BadTemplate { step }))
    }

    /// `full` and what there is no room for, behind its first word.
    fn full_reply(&mut self) -> Result<Reply, ParseCause>
        ensures { full_reply (rest self.old) ≡ taken result (rest self.new) }
    {
        let what = self.full()?;
        self.end()?;
        Ok(Reply::No(Refusal::Full { what }))
    }

    /// A reply at the end of the line.
    fn reply_ends(&mut self, reply: Reply) -> Result<Reply, ParseCause>
        ensures { end reply (rest self.old) ≡ taken result (rest self.new) }
    {
        self.end()?;
        Ok(reply)
    }

    /// The step of a refusal.
    fn step(&mut self) -> Result<u8, ParseCause>
        ensures { wanted (as_number_below 256) (rest self.old) ≡ taken result (rest self.new) }
    {
        let step = self.number_below(256)?;
        Ok(step as u8)
    }
}
