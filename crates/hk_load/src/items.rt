//! The items of a script, one after another (`docs/FORMATS.md`, "Loading").

ghost use Rattle.std.specs.Prelude.{◌≡◌, [], None, Ok, IfOk, length, nat_lt};
ghost use Rattle.hk_format.specs.declared.syntax.Head.TheVariants.{ObjectIs, ProcedureIs, CodeIs, ProcessIs};
ghost use Rattle.hk_model.specs.declared.world.Kind.TheVariants as kind;
ghost use Rattle.hk_model.specs.Limits.{process_limit};
ghost use Rattle.hk_model.specs.WorldValue.{IsWorld};
ghost use Rattle.hk_format.specs.Names.{Names};
ghost use Rattle.hk_format.specs.Loading.{at_line, limited, object_fits, code_named, plain_type};
ghost use Rattle.hk_format.specs.Outcomes.{Gives, GivesAll, BecomesAll};
ghost use Rattle.hk_load.specs.Jumping.{HasNewLabels};
ghost use Rattle.hk_load.specs.Building.{built, built_of, finished, counts_of, with_limit, with_born, with_task, single_added, added};

use crate::contents::{Contents, Room};
use crate::errors::{LineError, LoadError};
use crate::names::Declared;
use crate::steps::steps;
use hk_format::{Head, LoadCause, Part};
use hk_model::limits::{
    CODE_LIMIT, ENTRY_LIMIT, OBJECT_LIMIT, PROCESS_LIMIT, SLOT_LIMIT, USUAL_LIMIT,
};
use hk_model::{Born, Code, Entry, Items, Kind, Name, Task, Template, Text, World};
use std::alloc::{AllocError, Global};
use std::marker::PhantomData;

/// The objects that a script may declare: the seven kernel types stand beside them.
const DECLARED_LIMIT: usize = OBJECT_LIMIT - 7;

const DATA: Name = Name(1);

const UNIVERSAL: Name = Name(2);

const LAST_KERNEL_TYPE: Name = Name(6);

/// What the items before have given.
#[derive(Drop)]
pub struct Loaded {
    limit: Option<u32>,
    objects: Items<Born>,
    codes: Items<Code>,
    tasks: Items<Task>,
}

impl Loaded {
    /// Before the first item.
    pub fn new(alloc: Global) -> Loaded
        ensures { built_of result ≡ built None [] [] [] }
    {
        Loaded {
            limit: None,
            objects: Items::new(alloc),
            codes: Items::new(alloc),
            tasks: Items::new(alloc),
        }
    }

    /// Adds what the item with this head and these lines behind it gives. Causes come in the order of its
    /// lines: at its head UnknownName, then WrongPart, then TooMany.
    pub fn add(
        &mut self,
        alloc: Global,
        declared: &Declared,
        line: u32,
        head: Head,
        parts: Items<Part>,
    ) -> Result<(), LoadError>
        requires { HasNewLabels [] parts }
        ensures { BecomesAll result (built_of self.new) (added declared.now (built_of self.old) line parts head) }
    {
        match head {
            Head::LimitIs(limit) => {
                self.set_limit(limit);
                Ok(())
            }
            Head::TypeIs { name } => self.add_single(line, name, Kind::TypeObject),
            Head::ObjectIs { name, of } => self.add_object(
                alloc,
                declared,
                line,
                parts.as_slice(),
                name,
                &of,
            ),
            Head::SemaphoreIs { name, count } => {
                self.add_single(line, name, Kind::Semaphore { count })
            }
            Head::ProcedureIs { name, code } => self.add_procedure(
                alloc,
                declared,
                line,
                parts.as_slice(),
                name,
                &code,
            ),
            Head::CodeIs { name } => self.add_code(alloc, declared, line, parts, name),
            Head::ProcessIs { name, code } => self.add_task(
                alloc,
                declared,
                line,
                parts.as_slice(),
                name,
                &code,
            ),
        }
    }

    /// Keeps a limit, of which a script has one at most.
    fn set_limit(&mut self, limit: u32)
        ensures { built_of self.new ≡ with_limit (built_of self.old) limit }
    {
        if self.limit.is_none() {
            self.limit = Some(limit);
        }
    }

    /// Adds an object of one line, or TooMany.
    #[inline(always)]
    fn add_single(&mut self, line: u32, name: Text, kind: Kind) -> Result<(), LoadError>
        ensures { BecomesAll result (built_of self.new) (single_added (built_of self.old) line name kind) }
    {
        if self.objects.len() >= DECLARED_LIMIT {
            let cause = LoadCause::TooMany;
            return Err(LoadError::Refused { line, cause });
        }
        self.push_object(name, kind)
    }

    /// Adds an object of DATA, of UNIVERSAL or of a type of the script.
    fn add_object(
        &mut self,
        alloc: Global,
        declared: &Declared,
        line: u32,
        parts: &[Part],
        name: Text,
        of: &Text,
    ) -> Result<(), LoadError>
        ensures { BecomesAll result (built_of self.new) (added declared.now (built_of self.old) line parts.now (ObjectIs name of.now)) }
    {
        let of = self.object_type(declared, line, of)?;
        let room = Room {
            listed: of != DATA,
            entries: ENTRY_LIMIT,
        };
        let contents = Contents::of(alloc, declared, room, parts)?;
        self.push_object(name, plain_kind(of, contents))
    }

    /// Adds a procedure.
    fn add_procedure(
        &mut self,
        alloc: Global,
        declared: &Declared,
        line: u32,
        parts: &[Part],
        name: Text,
        code: &Text,
    ) -> Result<(), LoadError>
        ensures { BecomesAll result (built_of self.new) (added declared.now (built_of self.old) line parts.now (ProcedureIs name code.now)) }
    {
        let code = self.procedure_code(declared, line, code)?;
        let room = Room {
            listed: true,
            entries: ENTRY_LIMIT,
        };
        let contents = Contents::of(alloc, declared, room, parts)?;
        self.push_object(name, procedure_kind(code, contents))
    }

    /// Adds a code.
    fn add_code(
        &mut self,
        alloc: Global,
        declared: &Declared,
        line: u32,
        parts: Items<Part>,
        name: Text,
    ) -> Result<(), LoadError>
        requires { HasNewLabels [] parts }
        ensures { (names : Names) → BecomesAll result (built_of self.new) (added names (built_of self.old) line parts (CodeIs name)) }
    {
        if self.codes.len() >= CODE_LIMIT {
            let cause = LoadCause::TooMany;
            return Err(LoadError::Refused { line, cause });
        }
        let steps = steps(alloc, declared, parts)?;
        self.codes.push(Code { label: name, steps })?;
        Ok(())
    }

    /// Adds a process.
    fn add_task(
        &mut self,
        alloc: Global,
        declared: &Declared,
        line: u32,
        parts: &[Part],
        name: Text,
        code: &Text,
    ) -> Result<(), LoadError>
        ensures { BecomesAll result (built_of self.new) (added declared.now (built_of self.old) line parts.now (ProcessIs name code.now)) }
    {
        let code = self.task_code(declared, line, code)?;
        let room = Room {
            listed: true,
            entries: SLOT_LIMIT,
        };
        let contents = Contents::of(alloc, declared, room, parts)?;
        self.push_task(name, code, contents)
    }

    /// The type of an object, or the cause of its line.
    fn object_type(&self, declared: &Declared, line: u32, of: &Text) -> Result<Name, LoadError>
        ensures { GivesAll (λ n. n.0) result (at_line line (limited (object_fits (counts_of (built_of self.now))) (plain_type declared.now of.now))) }
    {
        match plain_type(declared, of) {
            Ok(of) => {
                if self.objects.len() < DECLARED_LIMIT {
                    Ok(of)
                } else {
                    let cause = LoadCause::TooMany;
                    Err(LoadError::Refused { line, cause })
                }
            }
            Err(error) => Err(error.on_line(line)),
        }
    }

    /// The code of a procedure, or the cause of its line.
    fn procedure_code(&self, declared: &Declared, line: u32, code: &Text) -> Result<u16, LoadError>
        ensures { GivesAll (λ n. n) result (at_line line (limited (object_fits (counts_of (built_of self.now))) (code_named declared.now code.now))) }
    {
        match declared.code(code) {
            Ok(code) => {
                if self.objects.len() < DECLARED_LIMIT {
                    Ok(code)
                } else {
                    let cause = LoadCause::TooMany;
                    Err(LoadError::Refused { line, cause })
                }
            }
            Err(error) => Err(error.on_line(line)),
        }
    }

    /// The code of a process, or the cause of its line.
    fn task_code(&self, declared: &Declared, line: u32, code: &Text) -> Result<u16, LoadError>
        ensures { GivesAll (λ n. n) result (at_line line (limited (nat_lt (length self.now.tasks) process_limit) (code_named declared.now code.now))) }
    {
        match declared.code(code) {
            Ok(code) => {
                if self.tasks.len() < PROCESS_LIMIT {
                    Ok(code)
                } else {
                    let cause = LoadCause::TooMany;
                    Err(LoadError::Refused { line, cause })
                }
            }
            Err(error) => Err(error.on_line(line)),
        }
    }

    /// Puts an object at the end.
    #[inline(always)]
    fn push_object(&mut self, label: Text, kind: Kind) -> Result<(), LoadError>
        ensures { BecomesAll result (built_of self.new) (Ok (with_born (built_of self.old) label kind)) }
    {
        let _ = PhantomData::<(Entry, Template)>;
        self.objects.push(Born { label, kind })?;
        Ok(())
    }

    /// Puts a process at the end, whose slots begin with the entries.
    fn push_task(&mut self, label: Text, code: u16, contents: Contents) -> Result<(), LoadError>
        ensures { BecomesAll result (built_of self.new) (Ok (with_task (built_of self.old) label code contents.entries)) }
    {
        let _ = PhantomData::<(Entry, Template)>;
        let Contents {
            words: _,
            params: _,
            entries,
        } = contents;
        self.tasks.push(Task {
            label,
            code,
            slots: entries,
        })?;
        Ok(())
    }

    /// The world of all items; its limit is 10,000 where none is given.
    pub fn finish(self) -> World
        requires { IsWorld (finished (built_of self)) }
        ensures { result ≡ finished (built_of self) }
    {
        let Loaded {
            limit,
            objects,
            codes,
            tasks,
        } = self;
        World::new(limit.unwrap_or(USUAL_LIMIT), objects, codes, tasks)
    }
}

/// The type of an object: DATA, UNIVERSAL or a type of the script, else WrongPart.
fn plain_type(declared: &Declared, of: &Text) -> Result<Name, LineError>
    ensures { Gives (λ n. n.0) result (plain_type declared.now of.now) }
{
    let of = declared.type_named(of)?;
    if of == DATA || of == UNIVERSAL || of > LAST_KERNEL_TYPE {
        Ok(of)
    } else {
        Err(LineError::Bad(LoadCause::WrongPart))
    }
}

/// An object of a type with these contents.
fn plain_kind(of: Name, contents: Contents) -> Kind
    ensures { result ≡ kind.Plain of contents.words contents.entries }
{
    let Contents {
        words,
        params: _,
        entries,
    } = contents;
    Kind::Plain { of, words, entries }
}

/// A procedure with these contents.
fn procedure_kind(code: u16, contents: Contents) -> Kind
    ensures { result ≡ kind.Procedure code contents.params contents.entries }
{
    let Contents {
        words: _,
        params,
        entries,
    } = contents;
    Kind::Procedure {
        code,
        params,
        entries,
    }
}
