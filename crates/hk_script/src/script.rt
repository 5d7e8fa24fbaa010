//! A whole script (`docs/FORMATS.md`, "Grammar").

ghost use Rattle.std.specs.Prelude.{◌≡◌, ℕ, ◌<◌, ◌-◌, ◌^◌, [], length, map, Ok, Err, IfOk, OnOk};
ghost use Rattle.hk_format.specs.declared.causes.TextCause.{TextCause};
ghost use Rattle.hk_format.specs.declared.causes.ParseCause.{ParseCause};
ghost use Rattle.hk_format.specs.declared.causes.Cause.{Cause};
ghost use Rattle.hk_format.specs.declared.causes.Cause.TheVariants.{OfText};
ghost use Rattle.hk_format.specs.Texts.{text, lines_of};
ghost use Rattle.hk_format.specs.Grammar.{script};
ghost use Rattle.hk_format.specs.Outcomes.{IsRefused};
ghost use Rattle.hk_text.specs.Views.{line_seen};
ghost use Rattle.hk_script.specs.Given.{names_given};
ghost use Rattle.hk_script.specs.Progresses.{items_after, checked, source_items, KeepsNames};

use crate::errors::{ParseError, SourceError};
use crate::names::Names;
use crate::progress::Progress;
use hk_format::Item;
use hk_model::Items;
use hk_text::{LineReader, TextError, TextLine};
use std::alloc::Global;
use std::marker::Model;

/// The items of a script, in the order of their heads: what they say is in form and in range, and
/// no name and no label of a code is given twice (`docs/FORMATS.md`, "Grammar"). Contracts see the
/// list.
#[derive(Drop)]
pub struct Syntax {
    items: Items<Item>,
    /// The names that the heads give, in their order.
    names: Names,
}

impl Model for Syntax {
    ghost use Rattle.std.specs.Prelude.{◌≡◌, List};
    ghost use Rattle.hk_format.specs.declared.syntax.Item.{Item};
    ghost use Rattle.hk_format.specs.Syntax.{IsSyntax};
    ghost use Rattle.hk_script.specs.Given.{names_given};

    ghost Value = { List Item };

    ghost view = { λ syntax. syntax.items };

    ghost invariant = { λ syntax. IsSyntax syntax.items × (syntax.names ≡ names_given syntax.items) };
}

impl Syntax {
    ghost use Rattle.hk_format.specs.Syntax.{IsSyntax};

    /// The items, in the order of their heads.
    pub fn items(&self) -> &[Item]
        ensures items { result.now ≡ self.now }
        ensures valid { IsSyntax self.now }
    {
        self.items.as_slice()
    }

    /// The names that the heads give, in their order.
    pub fn names(&self) -> &Names
        ensures { result.now ≡ names_given self.now }
    {
        &self.names
    }

    /// The items, in the order of their heads, and the names that these give.
    pub fn into_parts(self) -> (Items<Item>, Names)
        ensures items { result.0 ≡ self }
        ensures names { result.1 ≡ names_given self }
        ensures valid { IsSyntax self }
    {
        (self.items, self.names)
    }
}

/// The items of a script: `lines` are those that `hk_text::lines` gave of `source`. `Refused` tells
/// the first line that does not follow the grammar, and the first of its causes
/// (`docs/FORMATS.md`, "Grammar"). Want of memory is `NoMemory`.
pub fn parse(alloc: Global, lines: &[TextLine], source: &[u8]) -> Result<Syntax, ParseError>
    requires { text source.now ≡ Ok (map (line_seen source.now) lines.now) }
    ensures ok { IfOk result (λ syntax. script (map (line_seen source.now) lines.now) ≡ Ok syntax) }
    ensures refused { (line : ℕ) (cause : ParseCause) → IsRefused result line cause → script (map (line_seen source.now) lines.now) ≡ Err (line, cause) }
{
    let names = Names::of_script(alloc, source);
    let mut progress = Progress::new(alloc, names);
    for line in lines {
        progress.line(alloc, source, line.number, line.pieces.as_slice())?;
    }
    let (items, names) = progress.finish()?;
    Ok(Syntax { items, names })
}

/// The items of the script that these bytes are. `Refused` tells the first line that is refused by the
/// text check, and where that refuses none by the grammar, and the first of its causes
/// (`docs/FORMATS.md`, "Text" and "Grammar"). Want of memory is `NoMemory`. No line is held longer than
/// it is read. The bytes are to have fewer than 2^32 - 1 lines, so that each has a number.
pub fn parse_source(alloc: Global, source: &[u8]) -> Result<Syntax, SourceError>
    requires { length (lines_of source.now) < 2 ^ 32 - 1 }
    ensures ok { IfOk result (λ syntax. source_items source.now ≡ Ok syntax) }
    ensures refused { (line : ℕ) (cause : Cause) → IsRefused result line cause → source_items source.now ≡ Err (line, cause) }
{
    let names = Names::of_script(alloc, source);
    let mut progress = Progress::new(alloc, names);
    read_lines(alloc, source, &mut progress)?;
    let (items, names) = progress.finish()?;
    Ok(Syntax { items, names })
}

/// Reads the lines of a source.
fn read_lines(alloc: Global, source: &[u8], progress: &mut Progress) -> Result<(), TextError>
    requires { length (lines_of source.now) < 2 ^ 32 - 1 }
    ensures ok { OnOk result (checked (text source.now) (items_after progress.old) ≡ checked (Ok []) (items_after progress.new)) }
    ensures names { OnOk result (KeepsNames progress.old → KeepsNames progress.new) }
    ensures refused { (line : ℕ) (cause : TextCause) → IsRefused result line cause → checked (text source.now) (items_after progress.old) ≡ Err (line, OfText cause) }
{
    let mut lines = LineReader::new(alloc, source);
    while !lines.is_done() {
        let number = lines.read_line()?;
        if !lines.pieces().is_empty() {
            progress.line(alloc, source, number, lines.pieces())?;
        }
    }
    Ok(())
}
