//! What the names of a script stand for (`docs/FORMATS.md`, "Loading").

ghost use Rattle.std.specs.Prelude.{◌≡◌, ◌+◌, ◌-◌, ◌≤◌, ◌<◌, ◌^◌, ◌++◌, IfOk, OnOk, map};
ghost use Rattle.hk_format.specs.declared.syntax.Item.{Item};
ghost use Rattle.hk_format.specs.Names.{kernel_names};
ghost use Rattle.hk_format.specs.Loading.{place};
ghost use Rattle.hk_load.specs.Meanings.{meaning_given, object_after, code_after, meanings_from, those_of, meaning_named, object_meant, type_meant, code_meant, or_else};

use hk_format::{Head, Item};
use hk_script::Names;
use std::alloc::{AllocError, Global};

/// What a name of a script stands for.
#[derive(Clone, Copy)]
pub enum Meaning {
    /// The type of this number.
    IsType(u32),
    /// The object of this number, which is no type.
    IsObject(u32),
    /// The code of this number.
    IsCode(u32),
    IsProcess,
}

/// The numbers of the next object and of the next code.
#[derive(Drop)]
struct Next {
    object: u32,
    code: u32,
}

impl Next {
    /// What the name that a head gives stands for, if it gives one.
    fn meaning(&mut self, head: &Head) -> Option<Meaning>
        requires object { self.old.object < 2 ^ 32 - 1 }
        requires code { self.old.code < 2 ^ 32 - 1 }
        ensures meaning { result ≡ meaning_given self.old.object self.old.code head.now }
        ensures object { self.new.object ≡ object_after self.old.object head.now }
        ensures code { self.new.code ≡ code_after self.old.code head.now }
    {
        match head {
            Head::LimitIs(_) => None,
            Head::TypeIs { .. } => Some(Meaning::IsType(self.next_object())),
            Head::ObjectIs { .. } => Some(Meaning::IsObject(self.next_object())),
            Head::SemaphoreIs { .. } => Some(Meaning::IsObject(self.next_object())),
            Head::ProcedureIs { .. } => Some(Meaning::IsObject(self.next_object())),
            Head::CodeIs { .. } => Some(Meaning::IsCode(self.next_code())),
            Head::ProcessIs { .. } => Some(Meaning::IsProcess),
        }
    }

    /// The number of the next object, which is taken.
    fn next_object(&mut self) -> u32
        requires { self.old.object < 2 ^ 32 - 1 }
        ensures number { result ≡ self.old.object }
        ensures object { self.new.object ≡ self.old.object + 1 }
        ensures code { self.new.code ≡ self.old.code }
    {
        let number = self.object;
        self.object += 1;
        number
    }

    /// The number of the next code, which is taken.
    fn next_code(&mut self) -> u32
        requires { self.old.code < 2 ^ 32 - 1 }
        ensures number { result ≡ self.old.code }
        ensures object { self.new.object ≡ self.old.object }
        ensures code { self.new.code ≡ self.old.code + 1 }
    {
        let number = self.code;
        self.code += 1;
        number
    }
}

/// More items than these have no numbers: so many want more memory than there is.
const ITEM_LIMIT: usize = (1 << 32) - 9;

/// What the names that these heads give stand for, in their order. The only error is want of memory.
pub fn meanings_of(alloc: Global, items: &[Item]) -> Result<Vec<Meaning>, AllocError>
    ensures { IfOk result (λ ms. ms.items ≡ meanings_from 7 0 (map (λ (i : Item). i.head) items.now)) }
{
    if items.len() > ITEM_LIMIT {
        return Err(AllocError);
    }
    let mut meanings = Vec::with_capacity(alloc, items.len())?;
    let mut next = Next { object: 7, code: 0 };
    for item in items {
        push_some(&mut meanings, next.meaning(&item.head))?;
    }
    Ok(meanings)
}

/// Puts a meaning at the end, if there is one.
fn push_some(meanings: &mut Vec<Meaning>, meaning: Option<Meaning>) -> Result<(), AllocError>
    ensures { OnOk result (meanings.new.items ≡ meanings.old.items ++ those_of meaning) }
{
    if let Some(meaning) = meaning {
        meanings.push(meaning)?;
    }
    Ok(())
}

/// What a name stands for, if it is one of these.
fn meaning_named(names: &Names, meanings: &[Meaning], name: &str) -> Option<Meaning>
    ensures { result ≡ meaning_named names.now meanings.now name.now }
{
    match names.place(name) {
        Some(place) => meanings.get(place).copied(),
        None => None,
    }
}

/// The number of the object of this name, which may be a kernel type, if there is one.
pub fn object_number(names: &Names, meanings: &[Meaning], name: &str) -> Option<u64>
    ensures { result ≡ or_else (place kernel_names name.now) (object_meant (meaning_named names.now meanings.now name.now)) }
{
    if let Some(number) = kernel_type(name.as_bytes()) {
        return Some(number);
    }
    match meaning_named(names, meanings, name) {
        Some(Meaning::IsType(number)) => Some(u64::from(number)),
        Some(Meaning::IsObject(number)) => Some(u64::from(number)),
        Some(Meaning::IsCode(_)) => None,
        Some(Meaning::IsProcess) => None,
        None => None,
    }
}

/// The number of the type of this name, which may be a kernel type, if there is one.
pub fn type_number(names: &Names, meanings: &[Meaning], name: &str) -> Option<u64>
    ensures { result ≡ or_else (place kernel_names name.now) (type_meant (meaning_named names.now meanings.now name.now)) }
{
    if let Some(number) = kernel_type(name.as_bytes()) {
        return Some(number);
    }
    match meaning_named(names, meanings, name) {
        Some(Meaning::IsType(number)) => Some(u64::from(number)),
        Some(Meaning::IsObject(_)) => None,
        Some(Meaning::IsCode(_)) => None,
        Some(Meaning::IsProcess) => None,
        None => None,
    }
}

/// The number of the code of this name, if there is one.
pub fn code_number(names: &Names, meanings: &[Meaning], name: &str) -> Option<usize>
    ensures { result ≡ code_meant (meaning_named names.now meanings.now name.now) }
{
    match meaning_named(names, meanings, name) {
        Some(Meaning::IsType(_)) => None,
        Some(Meaning::IsObject(_)) => None,
        Some(Meaning::IsCode(number)) => Some(number as usize),
        Some(Meaning::IsProcess) => None,
        None => None,
    }
}

/// The number of the kernel type of this name, if it is that of one.
fn kernel_type(name: &[u8]) -> Option<u64>
    ensures { result ≡ place kernel_names name.now }
{
    if name == b"TYPE".as_slice() {
        Some(0)
    } else if name == b"DATA".as_slice() {
        Some(1)
    } else if name == b"UNIVERSAL".as_slice() {
        Some(2)
    } else if name == b"SEMAPHORE".as_slice() {
        Some(3)
    } else if name == b"PROCEDURE".as_slice() {
        Some(4)
    } else if name == b"PROCESS".as_slice() {
        Some(5)
    } else if name == b"LNS".as_slice() {
        Some(6)
    } else {
        None
    }
}
