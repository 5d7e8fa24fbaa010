//! The lines of a source, one after another (`docs/FORMATS.md`, "Text").

ghost use Rattle.std.specs.Prelude.{◌≡◌, ℕ, ◌<◌, ◌-◌, ◌^◌, [], length, IsTrue, IsFalse, Ok, Err, IfOk, OnOk};
ghost use Rattle.std.specs.List.{list_all};
ghost use Rattle.hk_format.specs.declared.causes.TextCause.{TextCause};
ghost use Rattle.hk_format.specs.Pieces.{is_piece};
ghost use Rattle.hk_format.specs.Texts.{lines_of, text, line_onto};
ghost use Rattle.hk_format.specs.Outcomes.{IsRefused};
ghost use Rattle.hk_text.specs.Ahead.{lines_ahead, bytes_ahead, pieces_read, HasNumbers};

use crate::errors::TextError;
use crate::pieces::Piece;
use crate::text::cut_line;
use std::alloc::Global;

/// A source whose lines are read one after another, each in the place of the one before, so that no
/// more than one is held.
#[derive(Drop)]
pub struct LineReader<'a> {
    source: &'a [u8],
    /// Where the next line begins.
    start: usize,
    /// The number of the next line, from 1.
    number: u32,
    /// The pieces of the last line that was read.
    pieces: Vec<Piece>,
}

impl<'a> LineReader<'a> {
    /// Before the first line. The source is to have fewer than 2^32 - 1 lines, so that each has a
    /// number.
    pub fn new(alloc: Global, source: &'a [u8]) -> LineReader<'a>
        requires { length (lines_of source.now) < 2 ^ 32 - 1 }
        ensures lines { lines_ahead result ≡ text source.now }
        ensures numbers { HasNumbers result }
        ensures source { result.source.now ≡ source.now }
    {
        LineReader {
            source,
            start: 0,
            number: 1,
            pieces: Vec::new(alloc),
        }
    }

    /// Whether all lines were read.
    pub fn is_done(&self) -> bool
        ensures done { IsTrue result → lines_ahead self.now ≡ Ok [] }
        ensures more { IsFalse result → 0 < bytes_ahead self.now }
    {
        self.start >= self.source.len()
    }

    /// Reads the next line, and tells its number. `Refused` tells the line where it is bad, and the
    /// first of its causes. Want of memory is `NoMemory`.
    pub fn read_line(&mut self) -> Result<u32, TextError>
        requires more { 0 < bytes_ahead self.old }
        requires numbers { HasNumbers self.old }
        ensures ok { IfOk result (λ number. lines_ahead self.old ≡ line_onto number (Ok (pieces_read self.new)) (lines_ahead self.new)) }
        ensures spelled { OnOk result (IsTrue (list_all is_piece (pieces_read self.new))) }
        ensures numbers { OnOk result (HasNumbers self.new) }
        ensures further { OnOk result (bytes_ahead self.new < bytes_ahead self.old) }
        ensures source { self.new.source.now ≡ self.old.source.now }
        ensures refused { (line : ℕ) (cause : TextCause) → IsRefused result line cause → lines_ahead self.old ≡ Err (line, cause) }
    {
        let number = self.number;
        let len = match cut_line(&mut self.pieces, self.source, self.start) {
            Ok(len) => len,
            Err(error) => return Err(error.on_line(number)),
        };
        self.number += 1;
        self.start += len + 1;
        Ok(number)
    }

    /// The pieces of the line that was read, from left to right. It may have none.
    pub fn pieces(&self) -> &[Piece]
        ensures { result.now ≡ self.now.pieces.items }
    {
        self.pieces.as_slice()
    }
}
