//! What the lines before have given (`docs/FORMATS.md`, "Grammar").

ghost use Rattle.std.specs.Prelude.{◌≡◌, [], ◌∷◌, ◌++◌, Some, None, Ok, true, IsTrue, IsNone, IfOk, map};
ghost use Rattle.std.specs.List.{list_all};
ghost use Rattle.hk_format.specs.Pieces.{is_piece};
ghost use Rattle.hk_format.specs.Grammar.{between_items, nothing_seen, after_line, next_line, in_item, item_at, joined, and_then, part_line, closed, Read, Open};
ghost use Rattle.hk_text.specs.Views.{seen};
ghost use Rattle.hk_format.specs.Outcomes.{Becomes};
ghost use Rattle.hk_script.specs.Given.{names_given, HasNames};
ghost use Rattle.hk_script.specs.Lines.{rest};
ghost use Rattle.hk_script.specs.Readings.{read_of, open_of, option_open, extended, after_part, MatchNew, MatchNewLabel, MatchPart, Closes};

use crate::errors::{LineError, ParseError};
use crate::heads::{has_parts, name_of};
use crate::line::Line;
use crate::names::Names;
use hk_format::{Body, Head, Item, ParseCause, Part};
use hk_model::Items;
use hk_text::Piece;
use std::alloc::Global;

/// An item whose end is to come, and the labels that it has given.
#[derive(Drop)]
pub struct Opened {
    item: Item,
    labels: Names,
}

impl Opened {
    /// Reads a line of the item, and tells whether it ends the item.
    fn line(&mut self, alloc: Global, number: u32, line: &mut Line) -> Result<bool, LineError>
        ensures { MatchPart result (open_of self.new) (λ (r : Read). and_then (part_line self.old.item.head (rest line.old)) (joined r (open_of self.old) number)) }
    {
        match line.part(alloc, &self.item.head)? {
            Some(body) => {
                self.extend(alloc, number, body)?;
                Ok(false)
            }
            None => Ok(true),
        }
    }

    /// Puts a line in its place, or Repeated.
    fn extend(&mut self, alloc: Global, line: u32, body: Body) -> Result<(), LineError>
        ensures { Becomes result (open_of self.new) (extended (open_of self.old) line body) }
    {
        note_label(alloc, &mut self.labels, &body)?;
        self.item.parts.push(Part { line, body })?;
        Ok(())
    }
}

/// What the lines before have given.
#[derive(Drop)]
pub struct Reading {
    items: Items<Item>,
    names: Names,
    limited: bool,
    unclosed: Option<Opened>,
}

impl Reading {
    /// Before the first item. The names are to be none yet.
    pub fn new(alloc: Global, names: Names) -> Reading
        requires { names ≡ [] }
        ensures { read_of result ≡ between_items [] nothing_seen }
    {
        Reading {
            items: Items::new(alloc),
            names,
            limited: false,
            unclosed: None,
        }
    }

    /// Reads the next line.
    pub fn line(
        &mut self,
        alloc: Global,
        source: &[u8],
        number: u32,
        pieces: &[Piece],
    ) -> Result<(), LineError>
        requires { IsTrue (list_all is_piece (map (seen source.now) pieces.now)) }
        ensures { Becomes result (read_of self.new) (after_line (read_of self.old) number (map (seen source.now) pieces.now)) }
    {
        let mut line = Line::new(source, pieces);
        match &mut self.unclosed {
            None => self.between(alloc, number, &mut line),
            Some(opened) => {
                if opened.line(alloc, number, &mut line)? {
                    self.close()?;
                }
                Ok(())
            }
        }
    }

    /// Reads a line between items, which is the head of one.
    fn between(&mut self, alloc: Global, number: u32, line: &mut Line) -> Result<(), LineError>
        requires { IsNone self.old.unclosed }
        ensures { Becomes result (read_of self.new) (next_line (read_of self.old) None number (rest line.old)) }
    {
        let head = line.head(alloc)?;
        self.note(alloc, &head)?;
        if has_parts(&head) {
            self.open(alloc, number, head)
        } else {
            self.push_single(alloc, number, head)
        }
    }

    /// Keeps what a head gives, or Repeated.
    fn note(&mut self, alloc: Global, head: &Head) -> Result<(), LineError>
        ensures { MatchNew result (read_of self.new) (read_of self.old) head.now }
    {
        if let Head::LimitIs(_) = head {
            if self.limited {
                return Err(LineError::Bad(ParseCause::Repeated));
            }
            self.limited = true;
            return Ok(());
        }
        if self.names.add(alloc, name_of(head))? {
            Ok(())
        } else {
            Err(LineError::Bad(ParseCause::Repeated))
        }
    }

    /// Begins the item with this head. Most items have one line more, so there is room for one.
    fn open(&mut self, alloc: Global, line: u32, head: Head) -> Result<(), LineError>
        requires { IsNone self.old.unclosed }
        ensures { Becomes result (read_of self.new) (Ok (in_item self.old.items (read_of self.old).seen (item_at line head []) [])) }
    {
        let parts = Items::from_vec(Vec::with_capacity(alloc, 1)?);
        let item = Item { line, head, parts };
        let labels = self.names.of_same_script(alloc);
        self.unclosed = Some(Opened { item, labels });
        Ok(())
    }

    /// Puts an item of one line at the end.
    fn push_single(&mut self, alloc: Global, line: u32, head: Head) -> Result<(), LineError>
        requires { IsNone self.old.unclosed }
        ensures { Becomes result (read_of self.new) (Ok (between_items (self.old.items ++ item_at line head [] ∷ []) (read_of self.old).seen)) }
    {
        let parts = Items::new(alloc);
        self.items.push(Item { line, head, parts })?;
        Ok(())
    }

    /// Ends the open item.
    fn close(&mut self) -> Result<(), LineError>
        ensures { (o : Open) → option_open self.old.unclosed ≡ Some o → Becomes result (read_of self.new) (Ok (after_part (read_of self.old) o true)) }
    {
        if let Some(opened) = self.unclosed.take() {
            let Opened { item, labels: _ } = opened;
            self.items.push(item)?;
        }
        Ok(())
    }

    /// The items and the names that their heads give, or Unclosed at the head of the item that is open.
    pub fn finish(self) -> Result<(Items<Item>, Names), ParseError>
        requires { HasNames (read_of self) }
        ensures items { Closes result (closed (read_of self).items (read_of self).unclosed) }
        ensures names { IfOk result (λ found. found.1 ≡ names_given found.0) }
    {
        let Reading {
            items,
            names,
            limited: _,
            unclosed,
        } = self;
        match unclosed {
            None => Ok((items, names)),
            Some(opened) => Err(ParseError::Refused {
                line: opened.item.line,
                cause: ParseCause::Unclosed,
            }),
        }
    }
}

/// Keeps the label that a line may give, or Repeated.
fn note_label(alloc: Global, labels: &mut Names, body: &Body) -> Result<(), LineError>
    ensures { MatchNewLabel result labels.new labels.old body.now }
{
    if let Body::LabelIs(label) = body {
        if !labels.add(alloc, label.as_str())? {
            return Err(LineError::Bad(ParseCause::Repeated));
        }
    }
    Ok(())
}
