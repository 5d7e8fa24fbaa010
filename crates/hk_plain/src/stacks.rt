//! The numbers of the live incarnations of each process, oldest first.
//!
//! The stack of a process is found in the logarithm of the number of processes. It has at most 64
//! numbers: its length and its end cost the same however many there are, and taking a number out of
//! it looks at each.

ghost use Rattle.std.specs.Prelude.{◌≡◌, ◌==◌, ◌-◌, ◌≤◌, [], ◌∷◌, ◌++◌, length, take, drop, OnOk, OnErr, IsSome, unwrap_or, if◌then◌else◌};
ghost use Rattle.hk_model.specs.declared.names.Proc.{Proc};
ghost use Rattle.std.specs.Map.{lookup, set_value};
ghost use Rattle.hk_plain.specs.Stacks.{same_proc, stack, without, placed};

use hk_model::{Inc, NoMemory, Proc};
use std::alloc::Global;
use std::collections::BTreeMap;
use std::marker::Model;

/// The numbers of the live incarnations of a process.
#[derive(Drop)]
pub struct Stack {
    numbers: Vec<Inc>,
}

impl Model for Stack {
    ghost use Rattle.std.specs.Prelude.{List};
    ghost use Rattle.hk_model.specs.declared.names.Inc.{Inc};

    ghost Value = { List Inc };

    ghost view = { λ s. s.numbers.items };
}

impl Stack {
    /// The stack of a process without incarnations.
    pub(crate) fn new(alloc: Global) -> Stack
        ensures { result ≡ [] }
    {
        Stack {
            numbers: Vec::new(alloc),
        }
    }

    /// How many incarnations there are.
    pub(crate) fn depth(&self) -> usize
        ensures { result ≡ length self.now }
    {
        self.numbers.len()
    }

    /// One more number, behind the others.
    pub(crate) fn push(&mut self, inc: Inc) -> Result<(), NoMemory>
        ensures ok { OnOk result (self.new ≡ self.old ++ inc ∷ []) }
        ensures err { OnErr result (self.new ≡ self.old) }
    {
        self.numbers.push(inc)?;
        Ok(())
    }

    /// Where a number stands among the others.
    fn place_of(&self, inc: Inc) -> usize
        ensures within { result ≤ length self.now }
        ensures place { take result self.now ++ inc ∷ drop result self.now ≡ placed inc self.now }
    {
        for at in 0..self.numbers.len() {
            if self.numbers[at].0 >= inc.0 {
                return at;
            }
        }
        self.numbers.len()
    }

    /// One more number, at its place.
    pub(crate) fn insert(&mut self, inc: Inc) -> Result<(), NoMemory>
        ensures ok { OnOk result (self.new ≡ placed inc self.old) }
        ensures err { OnErr result (self.new ≡ self.old) }
    {
        let at = self.place_of(inc);
        self.numbers.insert(at, inc)?;
        Ok(())
    }

    /// The last number goes.
    pub(crate) fn pop(&mut self)
        ensures { self.new ≡ take (length self.old - 1) self.old }
    {
        let _last = self.numbers.pop();
    }

    /// This number goes.
    pub(crate) fn forget(&mut self, inc: Inc)
        ensures { self.new ≡ without inc self.old }
    {
        self.numbers.retain(|number| number.0 != inc.0);
    }

    /// The numbers.
    pub(crate) fn as_slice(&self) -> &[Inc]
        ensures { result.now ≡ self.now }
    {
        self.numbers.as_slice()
    }
}

/// The stacks of all processes.
#[derive(Drop)]
pub struct Stacks {
    stacks: BTreeMap<Proc, Stack>,
}

impl Model for Stacks {
    ghost use Rattle.std.specs.Prelude.{List};
    ghost use Rattle.hk_model.specs.declared.names.Inc.{Inc};
    ghost use Rattle.hk_model.specs.declared.names.Proc.{Proc};

    ghost Value = { List (Proc × List Inc) };

    ghost view = { λ s. s.stacks.entries };
}

impl Stacks {
    /// No process has incarnations.
    pub(crate) fn new(alloc: Global) -> Stacks
        ensures { result ≡ [] }
    {
        Stacks {
            stacks: BTreeMap::new(alloc),
        }
    }

    /// How many incarnations a process has.
    pub(crate) fn depth(&self, proc: Proc) -> usize
        ensures { result ≡ length (stack self.now proc) }
    {
        match self.stacks.get(&proc) {
            Some(stack) => stack.depth(),
            None => 0,
        }
    }

    /// A process that has no stack gets an empty one.
    fn open(&mut self, alloc: Global, proc: Proc) -> Result<(), NoMemory>
        ensures there { OnOk result (IsSome (lookup (same_proc proc) self.new)) }
        ensures same { (q : Proc) → stack self.new q ≡ stack self.old q }
    {
        if self.stacks.contains_key(&proc) {
            return Ok(());
        }
        self.stacks.insert(proc, Stack::new(alloc))?;
        Ok(())
    }

    /// One more number on the stack of a process that has one.
    #[tactic(auto, using(crate::proofs::Maps::set_value_absent, crate::proofs::Maps::set_value_same))]
    fn push_on(&mut self, proc: Proc, inc: Inc) -> Result<(), NoMemory>
        requires { IsSome (lookup (same_proc proc) self.old) }
        ensures ok { OnOk result (self.new ≡ set_value (same_proc proc) self.old (stack self.old proc ++ inc ∷ [])) }
        ensures err { OnErr result (self.new ≡ self.old) }
    {
        if let Some(stack) = self.stacks.get_mut(&proc) {
            stack.push(inc)?;
        }
        Ok(())
    }

    /// One more number on the stack of a process.
    pub(crate) fn push(&mut self, alloc: Global, proc: Proc, inc: Inc) -> Result<(), NoMemory>
        ensures ok { OnOk result ((q : Proc) → stack self.new q ≡ (if proc.0 == q.0 then stack self.old q ++ inc ∷ [] else stack self.old q)) }
        ensures err { OnErr result ((q : Proc) → stack self.new q ≡ stack self.old q) }
    {
        self.open(alloc, proc)?;
        self.push_on(proc, inc)?;
        Ok(())
    }

    /// One more number at its place on the stack of a process that has one.
    #[tactic(auto, using(crate::proofs::Maps::set_value_absent, crate::proofs::Maps::set_value_same))]
    fn insert_on(&mut self, proc: Proc, inc: Inc) -> Result<(), NoMemory>
        requires { IsSome (lookup (same_proc proc) self.old) }
        ensures ok { OnOk result (self.new ≡ set_value (same_proc proc) self.old (placed inc (stack self.old proc))) }
        ensures err { OnErr result (self.new ≡ self.old) }
    {
        if let Some(stack) = self.stacks.get_mut(&proc) {
            stack.insert(inc)?;
        }
        Ok(())
    }

    /// One more number at its place on the stack of a process.
    pub(crate) fn insert(&mut self, alloc: Global, proc: Proc, inc: Inc) -> Result<(), NoMemory>
        ensures ok { OnOk result ((q : Proc) → stack self.new q ≡ (if proc.0 == q.0 then placed inc (stack self.old q) else stack self.old q)) }
        ensures err { OnErr result ((q : Proc) → stack self.new q ≡ stack self.old q) }
    {
        self.open(alloc, proc)?;
        self.insert_on(proc, inc)?;
        Ok(())
    }

    /// The last number goes from the stack of a process.
    #[tactic(auto, using(crate::proofs::Maps::set_value_absent))]
    pub(crate) fn pop(&mut self, proc: Proc)
        ensures { self.new ≡ set_value (same_proc proc) self.old (take (length (stack self.old proc) - 1) (stack self.old proc)) }
    {
        if let Some(stack) = self.stacks.get_mut(&proc) {
            stack.pop();
        }
    }

    /// A number goes from the stack of a process.
    #[tactic(auto, using(crate::proofs::Maps::set_value_absent))]
    pub(crate) fn forget(&mut self, proc: Proc, inc: Inc)
        ensures { self.new ≡ set_value (same_proc proc) self.old (without inc (stack self.old proc)) }
    {
        if let Some(stack) = self.stacks.get_mut(&proc) {
            stack.forget(inc);
        }
    }

    /// Takes the stack of a process, which then has no incarnations.
    pub(crate) fn take(&mut self, proc: Proc) -> Option<Stack>
        ensures taken { unwrap_or result [] ≡ stack self.old proc }
        ensures others { (q : Proc) → stack self.new q ≡ (if proc.0 == q.0 then [] else stack self.old q) }
    {
        self.stacks.remove(&proc)
    }
}
