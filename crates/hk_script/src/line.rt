//! A line that is read from the left (`docs/FORMATS.md`, "Grammar").

ghost use Rattle.std.specs.Prelude.{◌≡◌, IsTrue, map};
ghost use Rattle.std.specs.List.{list_all};
ghost use Rattle.hk_format.specs.Pieces.{is_piece};
ghost use Rattle.hk_text.specs.Views.{seen};

use crate::errors::LineError;
use hk_format::ParseCause;
use hk_model::Text;
use hk_text::Piece;
use std::alloc::Global;
use std::str;

/// What is left of a line.
#[derive(Drop)]
pub struct Line<'a> {
    source: &'a [u8],
    pieces: &'a [Piece],
    at: usize,
    ghost spelled: { IsTrue (list_all is_piece (map (seen source.now) pieces.now)) },
}

impl<'a> Line<'a> {
    ghost use Rattle.std.specs.Prelude.{◌∷◌, [], IfOk, IfErr, OnErr};
    ghost use Rattle.hk_format.specs.declared.causes.ParseCause.TheVariants as cause;
    ghost use Rattle.hk_format.specs.Texts.{is_none};
    ghost use Rattle.hk_format.specs.Reading.{end};
    ghost use Rattle.hk_text.specs.Views.{text_of};
    ghost use Rattle.hk_format.specs.declared.errors.LineError.TheVariants as line_error;
    ghost use Rattle.hk_script.specs.Lines.{rest, HasText};
    ghost use Rattle.hk_script.specs.Outcomes.{Reads};

    /// All of a line.
    pub fn new(source: &'a [u8], pieces: &'a [Piece]) -> Line<'a>
        requires { IsTrue (list_all is_piece (map (seen source.now) pieces.now)) }
        ensures { rest result ≡ map (seen source.now) pieces.now }
    {
        Line {
            source,
            pieces,
            at: 0,
        }
    }

    /// Whether nothing is left.
    pub fn is_read(&self) -> bool
        ensures { result ≡ is_none (rest self.now) }
    {
        self.at >= self.pieces.len()
    }

    /// The next piece, or Missing.
    pub fn piece(&mut self) -> Result<Piece, LineError>
        ensures next { IfOk result (λ piece. rest self.old ≡ seen self.old.source.now piece ∷ rest self.new) }
        ensures spelled { IfOk result (λ piece. IsTrue (is_piece (seen self.old.source.now piece))) }
        ensures none { OnErr result (rest self.old ≡ []) }
        ensures missing { IfErr result (λ e. e ≡ line_error.Bad cause.Missing) }
        ensures source { self.new.source.now ≡ self.old.source.now }
    {
        if self.at < self.pieces.len() {
            let piece = self.pieces[self.at];
            self.at += 1;
            Ok(piece)
        } else {
            Err(LineError::Bad(ParseCause::Missing))
        }
    }

    /// The end of the line, or Extra.
    pub fn end(&mut self) -> Result<(), LineError>
        ensures { Reads (λ x. x) result (rest self.new) (end tt (rest self.old)) }
    {
        if self.is_read() {
            Ok(())
        } else {
            Err(LineError::Bad(ParseCause::Extra))
        }
    }

    /// The bytes of a piece, or none where it is no part of the source.
    pub fn bytes(&self, piece: Piece) -> &'a [u8]
        ensures { result.now ≡ text_of self.now.source.now piece }
    {
        match self.source.get(piece.start..piece.end) {
            Some(bytes) => bytes,
            None => &[],
        }
    }

    /// The text of a piece that is a word or names.
    pub fn text(&self, alloc: Global, piece: Piece) -> Result<Text, LineError>
        requires { HasText (text_of self.now.source.now piece) }
        ensures ok { IfOk result (λ text. text ≡ text_of self.now.source.now piece) }
        ensures memory { IfErr result (λ e. e ≡ line_error.NoMemory) }
    {
        let text = unsafe { str::from_utf8_unchecked(self.bytes(piece)) };
        Ok(Text::from_str(alloc, text)?)
    }
}
