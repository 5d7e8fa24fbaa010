//! What the lines of a script say, before any name is looked up (`docs/FORMATS.md`, "Grammar").

use hk_model::{Args, BoxedText, Items, Operand, Route, Slot, Text};

/// A word that a line of a script begins with. `Amplify` and `Create` also stand inside the line
/// of `Template`; `Create` begins an entry in one place and an instruction in another.
#[derive(Clone, Copy, PartialEq, Eq, Debug)]
pub enum Verb {
    Hydra,
    Limit,
    Type,
    Object,
    Semaphore,
    Procedure,
    Code,
    Process,
    End,
    Words,
    Empty,
    Cap,
    Amplify,
    Create,
    Param,
    Label,
    GetData,
    PutData,
    AddData,
    Length,
    Load,
    Store,
    Append,
    Erase,
    Drop,
    Restrict,
    Look,
    Template,
    Merge,
    Copy,
    Call,
    Return,
    P,
    V,
    Yield,
    Set,
    Add,
    Goto,
    IfEq,
    IfLess,
    IfDenied,
}

/// The kind of template that an instruction makes. The rights are texts, as they were written.
#[derive(Drop)]
pub enum MakingText {
    Amplify { check: BoxedText, give: BoxedText },
    Create { give: BoxedText },
}

/// An instruction as it was written: rights are texts, and jumps name labels. The rest is that of
/// `Instr`: registers are 0 to 7, slots and first indices of a path 0 to 63, other indices 0 to
/// 65,535.
#[derive(Drop)]
pub enum Written {
    Get {
        of: Route,
        at: Operand,
        reg: u8,
    },
    Put {
        of: Route,
        at: Operand,
        word: Operand,
    },
    Add {
        of: Route,
        word: Operand,
    },
    Length {
        of: Route,
        reg: u8,
    },
    Load {
        from: Route,
        into: Slot,
    },
    Store {
        list: Route,
        at: Operand,
        from: Slot,
    },
    Append {
        list: Route,
        from: Slot,
    },
    Erase {
        list: Route,
        at: Operand,
    },
    Drop {
        slot: Slot,
    },
    Restrict {
        slot: Slot,
        keep: Text,
    },
    Look {
        of: Route,
        reg: u8,
    },
    MakeTemplate {
        of: Route,
        making: MakingText,
        into: Slot,
    },
    Create {
        by: Route,
        into: Slot,
    },
    Merge {
        with: Route,
        cap: Slot,
        into: Slot,
    },
    Copy {
        of: Route,
        into: Slot,
    },
    Enter {
        proc: Route,
        args: Args,
        into: Slot,
    },
    Leave {
        give: Option<Slot>,
    },
    P {
        of: Route,
    },
    V {
        of: Route,
    },
    Yield,
    SetReg {
        reg: u8,
        to: Operand,
    },
    AddReg {
        reg: u8,
        by: Operand,
    },
    Goto {
        to: Text,
    },
    IfEq {
        left: Operand,
        right: Operand,
        to: Text,
    },
    IfLess {
        left: Operand,
        right: Operand,
        to: Text,
    },
    IfDenied {
        to: Text,
    },
}

/// The first line of an item of a script. Names are words, and no registers and not `any`; types
/// and codes are named by words, types also by capital letters.
#[derive(Drop)]
pub enum Head {
    /// How many events there may be, 1 to 1,000,000.
    LimitIs(u32),
    TypeIs { name: Text },
    ObjectIs { name: Text, of: Text },
    /// A semaphore, with the tokens that it opens with, 0 to 65,535.
    SemaphoreIs { name: Text, count: u32 },
    ProcedureIs { name: Text, code: Text },
    CodeIs { name: Text },
    ProcessIs { name: Text, code: Text },
}

/// What a line inside an item says.
#[derive(Drop)]
pub enum Body {
    /// Words of an object, one at least.
    WordsAre(Items<u32>),
    EmptyEntry,
    CapEntry {
        object: Text,
        rights: Text,
    },
    AmplifyEntry {
        kind: Text,
        check: BoxedText,
        give: BoxedText,
    },
    CreateEntry {
        of: Text,
        give: BoxedText,
    },
    ParamIs {
        kind: Text,
        check: BoxedText,
        give: BoxedText,
    },
    LabelIs(Text),
    StepIs(Written),
}

/// A line inside an item.
#[derive(Drop)]
pub struct Part {
    /// The number of the line, from 1.
    pub line: u32,
    pub body: Body,
}

/// An item of a script. One of a single line has no parts.
#[derive(Drop)]
pub struct Item {
    /// The number of the line of its head, from 1.
    pub line: u32,
    pub head: Head,
    pub parts: Items<Part>,
}
