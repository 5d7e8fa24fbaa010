//! The forms that a piece can be wanted in (`docs/FORMATS.md`, "Names" and "Grammar").

ghost use Rattle.std.specs.Prelude.{◌≡◌, ◌<◌, ◌≤◌, ◌==◌, ◌∷◌, [], length, Ok, IsTrue, Some, codes, false, map};
ghost use Rattle.std.specs.List.{slice_split, position_or_len};
ghost use Rattle.hk_model.specs.declared.instructions.Route.{Route};
ghost use Rattle.hk_model.specs.Limits.{slot_limit};
ghost use Rattle.hk_format.specs.Pieces.{Path, is_index_text, is_too_large, index_of};
ghost use Rattle.hk_format.specs.Reading.{wanted};
ghost use Rattle.hk_format.specs.Forms.{as_verb, as_word, as_name, as_type, as_rights, as_number, as_number_in, as_slot, as_register, as_operand, as_route, route_of};
ghost use Rattle.hk_script.specs.Lines.{rest, index_in};
ghost use Rattle.hk_script.specs.Paths.{AreIndices, cut_points, route_on};
ghost use Rattle.hk_format.specs.Outcomes.{Gives};
ghost use Rattle.hk_script.specs.Outcomes.{Reads, GivesRegister};

use crate::errors::LineError;
use crate::line::Line;
use crate::verbs::verb_of;
use hk_format::{ParseCause, Verb};
use hk_model::limits::{INDEX_BOUND, SLOT_LIMIT};
use hk_model::{BoxedText, Index, Indices, Items, Operand, Route, Slot, Text};
use hk_text::{PieceKind, first_of, is_register, value};
use std::alloc::Global;

impl<'a> Line<'a> {
    /// The word of a verb.
    pub fn verb(&mut self) -> Result<Verb, LineError>
        ensures { Reads (λ x. x) result (rest self.new) (wanted as_verb (rest self.old)) }
    {
        let piece = self.piece()?;
        match piece.kind {
            PieceKind::Word => match verb_of(self.bytes(piece)) {
                Some(verb) => Ok(verb),
                None => Err(LineError::Bad(ParseCause::UnknownWord)),
            },
            _ => Err(LineError::Bad(ParseCause::UnknownWord)),
        }
    }

    /// A code or a label: any word.
    pub fn word(&mut self, alloc: Global) -> Result<Text, LineError>
        ensures { Reads (λ x. x) result (rest self.new) (wanted as_word (rest self.old)) }
    {
        let piece = self.piece()?;
        match piece.kind {
            PieceKind::Word => self.text(alloc, piece),
            _ => Err(LineError::Bad(ParseCause::UnknownWord)),
        }
    }

    /// A new name: a word that is no register and not `any`.
    pub fn name(&mut self, alloc: Global) -> Result<Text, LineError>
        ensures { Reads (λ x. x) result (rest self.new) (wanted as_name (rest self.old)) }
    {
        let piece = self.piece()?;
        match piece.kind {
            PieceKind::Word => {
                let bytes = self.bytes(piece);
                if is_register(bytes) || bytes == b"any".as_slice() {
                    return Err(LineError::Bad(ParseCause::UnknownWord));
                }
                self.text(alloc, piece)
            }
            _ => Err(LineError::Bad(ParseCause::UnknownWord)),
        }
    }

    /// A type, an object, or `any`: a word, or names in capital letters.
    pub fn type_text(&mut self, alloc: Global) -> Result<Text, LineError>
        ensures { Reads (λ x. x) result (rest self.new) (wanted as_type (rest self.old)) }
    {
        let piece = self.piece()?;
        match piece.kind {
            PieceKind::Word => self.text(alloc, piece),
            PieceKind::Upper => self.text(alloc, piece),
            _ => Err(LineError::Bad(ParseCause::UnknownWord)),
        }
    }

    /// Rights: names in capital letters, or a dash.
    pub fn rights(&mut self, alloc: Global) -> Result<Text, LineError>
        ensures { Reads (λ x. x) result (rest self.new) (wanted as_rights (rest self.old)) }
    {
        let piece = self.piece()?;
        match piece.kind {
            PieceKind::Upper => self.text(alloc, piece),
            PieceKind::Dash => Ok(Text::from_str(alloc, "-")?),
            _ => Err(LineError::Bad(ParseCause::UnknownWord)),
        }
    }

    /// Rights, set apart.
    pub fn boxed_rights(&mut self, alloc: Global) -> Result<BoxedText, LineError>
        ensures { Reads (λ x. x) result (rest self.new) (wanted as_rights (rest self.old)) }
    {
        let rights = self.rights(alloc)?;
        Ok(BoxedText::new(alloc, rights)?)
    }

    /// Any number.
    pub fn number(&mut self) -> Result<u32, LineError>
        ensures { Reads (λ x. x) result (rest self.new) (wanted as_number (rest self.old)) }
    {
        let piece = self.piece()?;
        match piece.kind {
            PieceKind::Number(n) => Ok(n),
            _ => Err(LineError::Bad(ParseCause::UnknownWord)),
        }
    }

    /// A number from `low` to `high`.
    pub fn number_in(&mut self, low: u32, high: u32) -> Result<u32, LineError>
        ensures { Reads (λ x. x) result (rest self.new) (wanted (as_number_in low high) (rest self.old)) }
    {
        let piece = self.piece()?;
        match piece.kind {
            PieceKind::Number(n) => {
                if low <= n && n <= high {
                    Ok(n)
                } else {
                    Err(LineError::Bad(ParseCause::OutOfRange))
                }
            }
            _ => Err(LineError::Bad(ParseCause::UnknownWord)),
        }
    }

    /// A slot, 0 to 63.
    pub fn slot(&mut self) -> Result<Slot, LineError>
        ensures { Reads (λ x. x) result (rest self.new) (wanted as_slot (rest self.old)) }
    {
        let piece = self.piece()?;
        match piece.kind {
            PieceKind::Number(n) => {
                if n < 64 {
                    Ok(Slot(n as u8))
                } else {
                    Err(LineError::Bad(ParseCause::OutOfRange))
                }
            }
            _ => Err(LineError::Bad(ParseCause::UnknownWord)),
        }
    }

    /// A register, `r0` to `r7`.
    pub fn register(&mut self) -> Result<u8, LineError>
        ensures { Reads (λ x. x) result (rest self.new) (wanted as_register (rest self.old)) }
    {
        let piece = self.piece()?;
        match piece.kind {
            PieceKind::Word => register(self.bytes(piece)),
            _ => Err(LineError::Bad(ParseCause::UnknownWord)),
        }
    }

    /// A number or a register.
    pub fn operand(&mut self) -> Result<Operand, LineError>
        ensures { Reads (λ x. x) result (rest self.new) (wanted as_operand (rest self.old)) }
    {
        let piece = self.piece()?;
        match piece.kind {
            PieceKind::Number(n) => Ok(Operand::Number(n)),
            PieceKind::Word => Ok(Operand::Reg(register(self.bytes(piece))?)),
            _ => Err(LineError::Bad(ParseCause::UnknownWord)),
        }
    }

    /// A path: one index, or several. The first is a slot, the others are 0 to 65,535.
    pub fn route(&mut self, alloc: Global) -> Result<Route, LineError>
        ensures { Reads (λ x. x) result (rest self.new) (wanted as_route (rest self.old)) }
    {
        let piece = self.piece()?;
        match piece.kind {
            PieceKind::Path => path(alloc, self.bytes(piece)),
            PieceKind::Number(n) => {
                if n < 64 {
                    Ok(one(Index::Fixed(n as u16)))
                } else {
                    Err(LineError::Bad(ParseCause::OutOfRange))
                }
            }
            PieceKind::Word => Ok(one(Index::ByReg(register(self.bytes(piece))?))),
            _ => Err(LineError::Bad(ParseCause::UnknownWord)),
        }
    }
}

/// The number of the register that the text names.
fn register(text: &[u8]) -> Result<u8, LineError>
    ensures { GivesRegister result text.now }
{
    if is_register(text) {
        Ok(text[1] - b'0')
    } else {
        Err(LineError::Bad(ParseCause::UnknownWord))
    }
}

/// The path of one index.
fn one(index: Index) -> Route
    ensures { result ≡ route_of (index ∷ []) }
{
    Route {
        at: Indices::one(index),
    }
}

/// The path whose indices points join in the text.
fn path(alloc: Global, text: &[u8]) -> Result<Route, LineError>
    requires { AreIndices (cut_points text.now) }
    ensures { Gives (λ x. x) result (as_route (Path (map index_of (cut_points text.now)))) }
{
    path_on(alloc, Items::new(alloc), text, SLOT_LIMIT as u32)
}

/// The path of these indices and of those in the text, the first of which is to be below the bound.
fn path_on(alloc: Global, mut at: Items<Index>, text: &[u8], bound: u32) -> Result<Route, LineError>
    requires indices { AreIndices (cut_points text.now) }
    requires bound { bound ≤ 65536 }
    ensures { Gives (λ x. x) result (route_on at bound (map index_of (cut_points text.now))) }
{
    let len = first_of(text, b'.');
    at.push(index(&text[..len], bound)?)?;
    if len == text.len() {
        let at = Indices::from_items(alloc, at)?;
        return Ok(Route { at });
    }
    path_on(alloc, at, &text[len..][1..], INDEX_BOUND)
}

/// An index that is a register, or a number below the bound.
fn index(text: &[u8], bound: u32) -> Result<Index, LineError>
    requires index { IsTrue (is_index_text text.now) }
    requires small { is_too_large text.now ≡ false }
    requires bound { bound ≤ 65536 }
    ensures { Gives (λ x. x) result (index_in bound (index_of text.now)) }
{
    if is_register(text) {
        return Ok(Index::ByReg(text[1] - b'0'));
    }
    match value(text) {
        Some(n) if n < bound => Ok(Index::Fixed(n as u16)),
        _ => Err(LineError::Bad(ParseCause::OutOfRange)),
    }
}
