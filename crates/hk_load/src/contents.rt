//! The lines of an object, a procedure or a process (`docs/FORMATS.md`, "Loading").

ghost use Rattle.std.specs.Prelude.{◌≡◌, ◌+◌, ◌≤◌, ◌++◌, [], length, IfOk, OnOk};
ghost use Rattle.hk_format.specs.Loading.{used, contents, contents_of};
ghost use Rattle.hk_format.specs.Outcomes.{Becomes, GivesAll};
ghost use Rattle.hk_load.specs.Filling.{contents_seen, room_seen, words_added, param_added, entry_added, added};

use crate::errors::{LineError, LoadError};
use crate::names::Declared;
use hk_format::{Body, LoadCause, Part};
use hk_model::limits::{PARAM_LIMIT, WORD_LIMIT};
use hk_model::{Entries, Param, Params, Template, Words};
use std::alloc::{AllocError, Global};
use std::marker::PhantomData;

/// What an item has room for.
#[derive(Clone, Copy)]
pub struct Room {
    /// Whether entries may stand in it.
    pub listed: bool,
    /// How many at most.
    pub entries: usize,
}

/// What the lines of an item give.
#[derive(Drop)]
pub struct Contents {
    pub words: Words,
    pub params: Params,
    pub entries: Entries,
}

impl Contents {
    /// Before the first line, with room for so many entries. The only error is want of memory.
    fn with_room(alloc: Global, entries: usize) -> Result<Contents, AllocError>
        ensures { IfOk result (λ none. contents_seen none ≡ contents [] [] []) }
    {
        Ok(Contents {
            words: Words::new(alloc),
            params: Params::new(alloc),
            entries: Entries::from_vec(Vec::with_capacity(alloc, entries)?),
        })
    }

    /// What these lines give. A line's UnknownName and BadRights come from the left, then WrongPart,
    /// then TooMany.
    pub fn of(
        alloc: Global,
        declared: &Declared,
        room: Room,
        parts: &[Part],
    ) -> Result<Contents, LoadError>
        requires { room.entries ≤ 256 }
        ensures { GivesAll contents_seen result (contents_of declared.now (room_seen room) (used 0 0 0) parts.now) }
    {
        let mut contents = Contents::with_room(alloc, entry_count(parts).min(room.entries))?;
        for part in parts {
            if let Err(error) = contents.add(declared, room, &part.body) {
                return Err(error.on_line(part.line));
            }
        }
        Ok(contents)
    }

    /// Adds what a line gives.
    fn add(&mut self, declared: &Declared, room: Room, body: &Body) -> Result<(), LineError>
        requires { room.entries ≤ 256 }
        ensures { Becomes result (contents_seen self.new) (added declared.now (room_seen room) (contents_seen self.old) body.now) }
    {
        match body {
            Body::WordsAre(words) => self.add_words(words.as_slice()),
            Body::ParamIs { kind, check, give } => {
                let param = declared.param(kind, check, give)?;
                self.add_param(param)
            }
            _ => self.add_entry(declared, room, body),
        }
    }

    /// Adds words, or TooMany.
    fn add_words(&mut self, words: &[u32]) -> Result<(), LineError>
        ensures { Becomes result (contents_seen self.new) (words_added (contents_seen self.old) words.now) }
    {
        if self.words.len() + words.len() > WORD_LIMIT {
            return Err(LineError::Bad(LoadCause::TooMany));
        }
        extend(&mut self.words, words)?;
        Ok(())
    }

    /// Adds a parameter, or TooMany.
    fn add_param(&mut self, param: Param) -> Result<(), LineError>
        ensures { Becomes result (contents_seen self.new) (param_added (contents_seen self.old) param) }
    {
        if self.params.len() == PARAM_LIMIT {
            return Err(LineError::Bad(LoadCause::TooMany));
        }
        self.params.push(param)?;
        Ok(())
    }

    /// Adds the entry of a line, or WrongPart, or TooMany.
    fn add_entry(&mut self, declared: &Declared, room: Room, body: &Body) -> Result<(), LineError>
        requires { room.entries ≤ 256 }
        ensures { Becomes result (contents_seen self.new) (entry_added declared.now (room_seen room) (contents_seen self.old) body.now) }
    {
        let _ = PhantomData::<Template>;
        let entry = declared.entry(body)?;
        if !room.listed {
            return Err(LineError::Bad(LoadCause::WrongPart));
        }
        if self.entries.len() >= room.entries {
            return Err(LineError::Bad(LoadCause::TooMany));
        }
        self.entries.push(entry)?;
        Ok(())
    }
}

/// How many of the lines are those of entries.
fn entry_count(parts: &[Part]) -> usize {
    parts.iter().filter(|part| is_entry(&part.body)).count()
}

/// Whether the line is neither words nor a parameter.
fn is_entry(body: &Body) -> bool {
    !matches!(body, Body::WordsAre(_) | Body::ParamIs { .. })
}

/// Adds words at the end.
fn extend(words: &mut Words, more: &[u32]) -> Result<(), AllocError>
    requires { length words.old + length more.now ≤ 4096 }
    ensures { OnOk result (words.new ≡ words.old ++ more.now) }
{
    for word in more {
        words.push(*word)?;
    }
    Ok(())
}
