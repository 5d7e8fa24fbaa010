//! Bytes as a record (`docs/FORMATS.md`, "Audit lines and records").

ghost use Rattle.std.specs.Prelude.{◌≡◌, ◌<◌, ◌-◌, ◌^◌, ℕ, Ok, Err, IfOk, length};
ghost use Rattle.hk_format.specs.declared.causes.Cause.{Cause};
ghost use Rattle.hk_format.specs.Texts.{lines_of};
ghost use Rattle.hk_format.specs.Audits.{audit};
ghost use Rattle.hk_format.specs.Outcomes.{IsRefused};

use crate::record_lines::read_events;
use crate::scripts::{line_count, script_length};
use hk_format::{Cause, ReadError};
use hk_load::read_world;
use hk_model::{End, Items, Line, Template, World};
use std::alloc::Global;
use std::marker::{Model, PhantomData};

/// Why bytes are no record. Lines are numbered from 1 in the whole record.
pub type RecordError = ReadError<Cause>;

/// What a record tells: its world, its audit lines and its end word.
#[derive(Drop)]
pub struct Audit {
    world: World,
    lines: Items<Line>,
    end: End,
}

impl Model for Audit {
    ghost use Rattle.hk_format.specs.Audits.{Audited};

    ghost Value = { Audited };

    ghost view = { λ a. record { world = a.world; lines = a.lines; end = a.end } };
}

impl Audit {
    /// The world that the script of the record declares.
    pub fn world(&self) -> &World
        ensures { result.now ≡ self.now.world }
    {
        &self.world
    }

    /// The audit lines, in their order.
    pub fn lines(&self) -> &[Line]
        ensures { result.now ≡ self.now.lines }
    {
        self.lines.as_slice()
    }

    /// The end word.
    pub fn end(&self) -> End
        ensures { result ≡ self.now.end }
    {
        self.end
    }
}

/// The record that bytes spell. `Refused` tells the line and the cause that come first, in the order
/// of `docs/FORMATS.md`, "Audit lines and records". Want of memory is `NoMemory`. The bytes are to
/// have fewer than 2^32 - 1 lines, so that each, and the line after the last, has a number.
pub fn read_record(alloc: Global, bytes: &[u8]) -> Result<Audit, RecordError>
    requires { length (lines_of bytes.now) < 2 ^ 32 - 1 }
    ensures ok { IfOk result (λ a. audit bytes.now ≡ Ok a) }
    ensures refused { (line : ℕ) (cause : Cause) → IsRefused result line cause → audit bytes.now ≡ Err (line, cause) }
{
    let _ = PhantomData::<Template>; // Rattle is to know what an Entry holds
    let (script, behind) = bytes.split_at(script_length(bytes));
    let world = read_world(alloc, script)?;
    let events = read_events(alloc, behind, line_count(script) + 1)?;
    Ok(Audit {
        world,
        lines: events.lines,
        end: events.end,
    })
}
