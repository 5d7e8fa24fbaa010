//! How many changes there are under confined calls, counted as the lines of a run come (`docs/RULES.md`,
//! "Changes and their reasons").

ghost use Rattle.std.specs.Prelude.{◌≡◌, ◌+◌, ◌++◌, [], List, length, replicate, slice_index_or, is_some, IfOk, OnErr, OnOk};
ghost use Rattle.hk_model.specs.declared.lines.Line.{Line};
ghost use Rattle.hk_model.specs.WorldValue.{WorldValue};
ghost use Rattle.hk_model.specs.Changes.{bare_changes};
ghost use Rattle.hk_model.specs.Lines.{done_call, enters_call, changes_path};
ghost use Rattle.hk_model.specs.Running.{AreStepsOf};
ghost use Rattle.hk_report.specs.Counts.{counted, counted_by, depth_entered, depths_by};

use crate::doings::changed_path;
use hk_model::{Call, Inc, Line, NoMemory, Reply, What, World};
use std::alloc::Global;
use std::marker::Model;

/// How many changes the lines so far have made under confined calls.
#[derive(Drop)]
pub struct Counting {
    // How many confined calls each incarnation is under, by its number.
    depths: Vec<u32>,
    changes: u64,
}

impl Model for Counting {
    ghost use Rattle.hk_report.specs.Counts.{Counted};

    ghost Value = { Counted };

    ghost view = { λ c. record { depths = c.depths.items; changes = c.changes } };
}

/// No confined call over each of so many incarnations.
fn no_depths(alloc: Global, count: usize) -> Result<Vec<u32>, NoMemory>
    ensures { IfOk result (λ depths. depths.items ≡ replicate count 0) }
{
    let mut depths = Vec::with_capacity(alloc, count)?;
    for _ in 0..count {
        depths.push(0)?;
    }
    Ok(depths)
}

/// How many confined calls an incarnation of this number is under.
fn depth_of(depths: &[u32], inc: Inc) -> u32
    ensures { result ≡ slice_index_or depths.now inc.0 0 }
{
    match depths.get(inc.0 as usize) {
        Some(depth) => *depth,
        None => 0,
    }
}

/// How many an incarnation is under which one enters that is under so many. NoMemory is want of room in the number.
fn depth_entered(confined: bool, above: u32) -> Result<u32, NoMemory>
    ensures { IfOk result (λ depth. depth ≡ depth_entered confined above) }
{
    if !confined {
        return Ok(above);
    }
    match above.checked_add(1) {
        Some(depth) => Ok(depth),
        None => Err(NoMemory),
    }
}

/// Whether a line has entered a procedure.
fn enters(line: &Line) -> bool
    ensures { result ≡ enters_call (done_call line.now) }
{
    match &line.reply {
        Reply::No(_) => false,
        _ => match &line.what {
            What::Call(Call::Enter { .. }) => true,
            _ => false,
        },
    }
}

/// Whether a line has changed an object.
fn changes(line: &Line) -> bool
    ensures { result ≡ is_some (changes_path (done_call line.now)) }
{
    match &line.reply {
        Reply::No(_) => false,
        _ => match &line.what {
            What::Call(call) => changed_path(call).is_some(),
            _ => false,
        },
    }
}

/// A sum. NoMemory is want of room in the number.
fn sum(a: u64, b: u32) -> Result<u64, NoMemory>
    ensures { IfOk result (λ sum. sum ≡ a + b) }
{
    match a.checked_add(b as u64) {
        Some(sum) => Ok(sum),
        None => Err(NoMemory),
    }
}

impl Counting {
    /// No line is counted yet of a run of this world from its opening on. NoMemory is want of memory.
    pub fn new(alloc: Global, world: &World) -> Result<Counting, NoMemory>
        ensures { IfOk result (λ counting. counting ≡ counted world.now []) }
    {
        let depths = no_depths(alloc, world.tasks().len())?;
        Ok(Counting { depths, changes: 0 })
    }

    /// Counts the changes that a line has made. `confined` is whether the call is confined that its processor runs behind
    /// it; it counts where the line has entered a procedure. NoMemory is want of memory, or of room for the count, and leaves
    /// the count as it was.
    pub fn add(&mut self, line: &Line, confined: bool) -> Result<(), NoMemory>
        ensures counted { OnOk result (self.new ≡ counted_by line.now confined self.old) }
        ensures memory { OnErr result (self.new ≡ self.old) }
    {
        let above = depth_of(self.depths.as_slice(), line.inc);
        let mut total = self.changes;
        if changes(line) {
            total = sum(total, above)?;
        }
        if enters(line) {
            self.depths.push(depth_entered(confined, above)?)?;
        }
        self.changes = total;
        Ok(())
    }

    /// How many changes there are under confined calls (`docs/RULES.md`, "Changes and their reasons"): where all
    /// lines of a history were counted, as many as `changes_under` tells.
    #[tactic(auto, using(crate::proofs::Counts::counted_changes))]
    pub fn changes(&self) -> u64
        ensures value { result ≡ self.now.changes }
        ensures all { (w : WorldValue) → (lines : List Line) → AreStepsOf w lines → self.now ≡ counted w lines → result ≡ length (bare_changes w lines) }
    {
        self.changes
    }
}
