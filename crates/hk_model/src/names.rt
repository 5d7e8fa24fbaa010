//! Numbers that name things (`docs/RULES.md`, "Objects, incarnations, processes").

/// The name of an object. No two objects ever have the same; 0 to 6 are the kernel types.
#[derive(Clone, Copy, PartialEq, Eq, PartialOrd, Ord, Debug)]
pub struct Name(pub u64);

/// The number of an incarnation, which is a local name space. No two ever have the same.
#[derive(Clone, Copy, PartialEq, Eq, PartialOrd, Ord, Debug)]
pub struct Inc(pub u64);

/// The number of a process, 0 to 255, in the order of the script.
#[derive(Clone, Copy, PartialEq, Eq, PartialOrd, Ord, Debug)]
pub struct Proc(pub u16);

/// The number of a processor, 0 to 15.
#[derive(Clone, Copy, PartialEq, Eq, PartialOrd, Ord, Debug)]
pub struct Cpu(pub u8);

/// The number of a slot of an incarnation. There are 64; a call that names another is refused.
#[derive(Clone, Copy, PartialEq, Eq, PartialOrd, Ord, Debug)]
pub struct Slot(pub u8);
