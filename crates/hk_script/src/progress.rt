//! How far a script was read (`docs/FORMATS.md`, "Grammar").

ghost use Rattle.std.specs.Prelude.{◌≡◌, ◌∷◌, [], IsTrue, IsNone, IfOk, OnOk, Err, map};
ghost use Rattle.std.specs.List.{list_all};
ghost use Rattle.hk_format.specs.declared.causes.ParseCause.{ParseCause};
ghost use Rattle.hk_format.specs.declared.errors.LineError.TheVariants.{Bad};
ghost use Rattle.hk_format.specs.Pieces.{is_piece};
ghost use Rattle.hk_format.specs.Texts.{Lines};
ghost use Rattle.hk_format.specs.Grammar.{script};
ghost use Rattle.hk_text.specs.Views.{seen};
ghost use Rattle.hk_script.specs.Given.{names_given};
ghost use Rattle.hk_script.specs.Readings.{Closes};
ghost use Rattle.hk_script.specs.Progresses.{items_after, KeepsNames};

use crate::errors::{LineError, ParseError};
use crate::line::Line;
use crate::names::Names;
use crate::reading::Reading;
use hk_format::{Item, ParseCause};
use hk_model::Items;
use hk_text::Piece;
use std::alloc::{AllocError, Global};

/// A line that does not follow the grammar, and the first of its causes.
#[derive(Clone, Copy)]
pub struct Refusal {
    line: u32,
    cause: ParseCause,
}

/// How far a script was read, line by line. Behind the first line that is refused no line is looked at.
#[derive(Drop)]
pub struct Progress {
    /// Whether the header was read.
    begun: bool,
    reading: Reading,
    refused: Option<Refusal>,
}

impl Progress {
    /// Before the first line. The names are to be none yet.
    pub fn new(alloc: Global, names: Names) -> Progress
        requires { names ≡ [] }
        ensures items { (lines : Lines) → items_after result lines ≡ script lines }
        ensures names { KeepsNames result }
    {
        Progress {
            begun: false,
            reading: Reading::new(alloc, names),
            refused: None,
        }
    }

    /// Reads the next line. The only error is want of memory: a line that is refused is kept, and told
    /// at the end.
    pub fn line(
        &mut self,
        alloc: Global,
        source: &[u8],
        number: u32,
        pieces: &[Piece],
    ) -> Result<(), AllocError>
        requires { IsTrue (list_all is_piece (map (seen source.now) pieces.now)) }
        ensures items { OnOk result ((lines : Lines) → items_after self.new lines ≡ items_after self.old ((number, map (seen source.now) pieces.now) ∷ lines)) }
        ensures names { OnOk result (KeepsNames self.old → KeepsNames self.new) }
    {
        if self.refused.is_some() {
            return Ok(());
        }
        match self.read(alloc, source, number, pieces) {
            Ok(()) => Ok(()),
            Err(LineError::Bad(cause)) => {
                self.refused = Some(Refusal {
                    line: number,
                    cause,
                });
                Ok(())
            }
            Err(LineError::NoMemory) => Err(AllocError),
        }
    }

    /// Reads the next line, where none was refused.
    fn read(
        &mut self,
        alloc: Global,
        source: &[u8],
        number: u32,
        pieces: &[Piece],
    ) -> Result<(), LineError>
        requires spelled { IsTrue (list_all is_piece (map (seen source.now) pieces.now)) }
        requires none { IsNone self.old.refused }
        ensures ok { OnOk result ((lines : Lines) → items_after self.new lines ≡ items_after self.old ((number, map (seen source.now) pieces.now) ∷ lines)) }
        ensures names { OnOk result (KeepsNames self.old → KeepsNames self.new) }
        ensures bad { (cause : ParseCause) (lines : Lines) → result ≡ Err (Bad cause) → items_after self.old ((number, map (seen source.now) pieces.now) ∷ lines) ≡ Err (number, cause) }
    {
        if self.begun {
            return self.reading.line(alloc, source, number, pieces);
        }
        Line::new(source, pieces).header()?;
        self.begun = true;
        Ok(())
    }

    /// The items and the names that their heads give, or the first line that was refused and its cause.
    /// Unclosed stands at the head of the item that is open.
    pub fn finish(self) -> Result<(Items<Item>, Names), ParseError>
        requires { KeepsNames self }
        ensures items { Closes result (items_after self []) }
        ensures names { IfOk result (λ found. found.1 ≡ names_given found.0) }
    {
        let Progress {
            begun,
            reading,
            refused,
        } = self;
        if let Some(Refusal { line, cause }) = refused {
            return Err(ParseError::Refused { line, cause });
        }
        if !begun {
            return Err(ParseError::Refused {
                line: 1,
                cause: ParseCause::Missing,
            });
        }
        reading.finish()
    }
}
