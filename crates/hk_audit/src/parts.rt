//! The texts that a byte separates, one after another.

ghost use Rattle.std.specs.Prelude.{◌≡◌, ◌==◌};

use hk_format::ParseCause;
use hk_text::first_of;

/// What is left of texts that a byte separates.
#[derive(Drop)]
pub struct Parts<'a> {
    text: &'a [u8],
    separator: u8,
    at: usize,
}

impl<'a> Parts<'a> {
    ghost use Rattle.std.specs.Prelude.{◌∷◌, [], IfOk, IfErr, OnErr};
    ghost use Rattle.std.specs.List.{slice_split};
    ghost use Rattle.hk_format.specs.declared.causes.ParseCause.TheVariants as cause;
    ghost use Rattle.hk_format.specs.Texts.{is_none};
    ghost use Rattle.hk_audit.specs.Left.{texts};

    /// All the texts of which such bytes make one.
    pub fn new(text: &'a [u8], separator: u8) -> Parts<'a>
        ensures { texts result ≡ slice_split (λ b. b == separator) text.now }
    {
        Parts {
            text,
            separator,
            at: 0,
        }
    }

    /// Whether no text is left.
    pub fn is_read(&self) -> bool
        ensures { result ≡ is_none (texts self.now) }
    {
        self.at > self.text.len()
    }

    /// The next text, or Missing.
    pub fn next(&mut self) -> Result<&'a [u8], ParseCause>
        ensures next { IfOk result (λ t. texts self.old ≡ t.now ∷ texts self.new) }
        ensures none { OnErr result (texts self.old ≡ []) }
        ensures missing { IfErr result (λ e. e ≡ cause.Missing) }
    {
        if self.at > self.text.len() {
            return Err(ParseCause::Missing);
        }
        let rest = &self.text[self.at..];
        let len = first_of(rest, self.separator);
        self.at += len + 1;
        Ok(&rest[..len])
    }
}
