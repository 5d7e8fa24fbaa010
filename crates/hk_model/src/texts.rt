//! Texts, as contracts see them.

ghost use Rattle.std.specs.Prelude.{◌≡◌, IfOk, IfSome, string_bytes};

use std::alloc::{AllocError, Global};
use std::marker::Model;
use std::str;

/// The most bytes of a text that has no memory of its own. Most labels and names of rights have no more.
const SHORT: usize = 14;

/// The letters of a short text. Contracts see their bytes.
#[derive(Drop)]
pub(crate) struct ShortText {
    len: u8,
    letters: [u8; SHORT],
}

impl Model for ShortText {
    ghost use Rattle.std.specs.Prelude.{◌≡◌, ◌≤◌, List, ℕ, length, take, IsUtf8};

    ghost Value = { List ℕ };

    ghost view = { λ s. take s.len s.letters };

    ghost invariant = { λ s. (s.len ≤ 14) × (length s.letters ≡ 14) × ∥ IsUtf8 (take s.len s.letters) ∥₁ };
}

impl ShortText {
    /// An equal text, where it is short.
    fn of(text: &str) -> Option<ShortText>
        ensures { IfSome result (λ v. v ≡ text.now) }
    {
        let bytes = text.as_bytes();
        if bytes.len() > SHORT {
            return None;
        }
        let mut letters = [0; SHORT];
        letters[..bytes.len()].copy_from_slice(bytes);
        Some(ShortText {
            len: bytes.len() as u8,
            letters,
        })
    }

    /// The letters of the text.
    fn as_str(&self) -> &str
        ensures { result.now ≡ self.now }
    {
        unsafe { str::from_utf8_unchecked(&self.letters[..self.len as usize]) }
    }
}

/// How a text is kept.
#[derive(Drop)]
pub(crate) enum Letters {
    /// Where the text itself is.
    Here(ShortText),
    /// In memory of their own.
    Apart(Box<String>),
}

/// A text, which takes two words of memory where it is short. Contracts see its bytes.
#[derive(Drop)]
pub struct Text {
    letters: Letters,
}

const _: () = prove!(size_of::<Text>() == 16);

impl Model for Text {
    ghost use Rattle.std.specs.Prelude.{List, ℕ};
    ghost use Rattle.hk_model.specs.Texts.{letters_bytes};

    ghost Value = { List ℕ };

    ghost view = { λ a. letters_bytes a.letters };
}

impl Text {
    /// The text of these letters. The only error is want of memory.
    pub fn from_string(text: String) -> Result<Text, AllocError>
        ensures { IfOk result (λ v. v ≡ string_bytes text) }
    {
        let letters = match ShortText::of(text.as_str()) {
            Some(short) => Letters::Here(short),
            None => Letters::Apart(Box::new(*text.allocator(), text)?),
        };
        Ok(Text { letters })
    }

    /// An equal text: where it is short, without memory of its own. The only error is want of memory.
    pub fn from_str(alloc: Global, text: &str) -> Result<Text, AllocError>
        ensures { IfOk result (λ v. v ≡ text.now) }
    {
        let letters = match ShortText::of(text) {
            Some(short) => Letters::Here(short),
            None => Letters::Apart(Box::new(alloc, String::from_str(alloc, text)?)?),
        };
        Ok(Text { letters })
    }

    /// The letters of the text.
    pub fn as_str(&self) -> &str
        ensures { result.now ≡ self.now }
    {
        match &self.letters {
            Letters::Here(text) => text.as_str(),
            Letters::Apart(text) => text.as_str(),
        }
    }

    /// The bytes of the text.
    pub fn as_bytes(&self) -> &[u8]
        ensures { result.now ≡ self.now }
    {
        self.as_str().as_bytes()
    }

    /// An equal text. The only error is want of memory.
    pub fn copy(&self, alloc: Global) -> Result<Text, AllocError>
        ensures { IfOk result (λ v. v ≡ self.now) }
    {
        Text::from_str(alloc, self.as_str())
    }
}

/// A text that stands apart, so that what holds it stays small: for the texts that are rare where they stand. Contracts see
/// its bytes.
#[derive(Drop)]
pub struct BoxedText {
    text: Box<Text>,
}

impl Model for BoxedText {
    ghost use Rattle.std.specs.Prelude.{List, ℕ};

    ghost Value = { List ℕ };

    ghost view = { λ a. a.text.value };
}

impl BoxedText {
    /// This text, set apart. The only error is want of memory.
    pub fn new(alloc: Global, text: Text) -> Result<BoxedText, AllocError>
        ensures { IfOk result (λ v. v ≡ text) }
    {
        Ok(BoxedText {
            text: Box::new(alloc, text)?,
        })
    }

    /// The text.
    pub fn as_text(&self) -> &Text
        ensures { result.now ≡ self.now }
    {
        &self.text
    }

    /// An equal text. The only error is want of memory.
    pub fn copy(&self, alloc: Global) -> Result<BoxedText, AllocError>
        ensures { IfOk result (λ v. v ≡ self.now) }
    {
        BoxedText::new(alloc, self.text.copy(alloc)?)
    }
}
