//! A history once more, with what its lines did (`docs/RULES.md`, "Steps of processors").

ghost use Rattle.std.specs.Prelude.{◌≡◌, ◌+◌, ◌<◌, ◌≤◌, ◌^◌, ◌++◌, [], true, false, Some, None, length, map, replicate, take, slice_index_or, IfOk, OnOk};
ghost use Rattle.hk_model.specs.Lines.{done_call, param_count};
ghost use Rattle.hk_model.specs.Places.{cap_of};
ghost use Rattle.hk_model.specs.Running.{AreStepsOf, opened, step};
ghost use Rattle.hk_program.specs.Machines.{IsSound};
ghost use Rattle.hk_report.specs.Doings.{doing_behind, given_params, given_slots, kept_params};
ghost use Rattle.hk_report.specs.Families.{changes_by, families_by};
ghost use Rattle.hk_report.specs.Histories.{finished_below, noted, opened_below};
ghost use Rattle.hk_report.specs.Retold.{IsRetold, IsToldMore};

use crate::doings::{Before, Doing, Entered, Known, before_by, does_nothing, doing_behind};
use crate::families::Families;
use crate::histories::{History, finish, note, opened_histories};
use crate::params::GivenParams;
use crate::shows::slots_of;
use hk_model::{
    Call, Cpu, Entry, Inc, Line, Making, NoMemory, Refusal, Reply, Template, What, World,
};
use hk_plain::Plain;
use hk_program::{Machine, blank_line};
use std::alloc::Global;
use std::marker::PhantomData;

/// What the reasons of changes are told by.
#[derive(Drop)]
pub struct Telling {
    /// The changes under confined calls, and the calls that each incarnation is under.
    pub families: Families,
    /// The merged parameters of each call that a line has begun, in the order of their incarnations.
    pub params: GivenParams,
    /// What has stood in the list of each object, by its name.
    pub histories: Vec<History>,
}

/// How many parameters the call has that a line has begun.
fn param_count(line: &Line) -> usize
    ensures value { result ≡ param_count (done_call line.now) }
    ensures few { result ≤ 8 }
{
    match &line.reply {
        Reply::No(_) => 0,
        _ => match &line.what {
            What::Call(Call::Enter { args, .. }) => args.len(),
            _ => 0,
        },
    }
}

/// The entries in the first of these slots, in as many as the call has parameters that a line has begun.
fn param_slots<'a>(line: &Line, slots: &'a [Entry]) -> &'a [Entry]
    ensures value { result.now ≡ take (param_count (done_call line.now)) slots.now }
    ensures few { length result.now ≤ 8 }
{
    let count = param_count(line).min(slots.len());
    &slots[..count]
}

/// The slots of the merged parameters of the call that a line has begun, by a kernel in the state behind it.
fn param_slots_behind<'a>(kernel: &'a Plain, line: &Line, before: &Before) -> &'a [Entry]
    ensures value { result.now ≡ given_slots line.now before.now kernel.now }
    ensures few { length result.now ≤ 8 }
{
    match before.enters {
        Some(inc) => param_slots(line, slots_of(kernel, inc)),
        None => &[],
    }
}

/// The parameters of one call more, which are in these slots, where a line has begun one.
fn keep_params(
    all: &mut GivenParams,
    entered: &Option<Entered>,
    slots: &[Entry],
) -> Result<(), NoMemory>
    requires { length slots.now ≤ 8 }
    ensures { OnOk result (all.new ≡ all.old ++ kept_params entered.now (map cap_of slots.now)) }
{
    match entered {
        Some(_) => all.push(slots),
        None => Ok(()),
    }
}

impl Telling {
    /// What no line tells yet, by a kernel in the state of the opening.
    fn begin(alloc: Global, kernel: &Plain) -> Result<Telling, NoMemory>
        ensures changes { IfOk result (λ t. t.families.changes.items ≡ []) }
        ensures calls { IfOk result (λ t. t.families.calls ≡ replicate kernel.now.next_inc.0 []) }
        ensures params { IfOk result (λ t. t.params ≡ []) }
        ensures histories { IfOk result (λ t. t.histories.items ≡ opened_below kernel.now kernel.now.next_name.0) }
    {
        Ok(Telling {
            families: Families::begin(alloc, kernel.next_inc())?,
            params: GivenParams::new(alloc),
            histories: opened_histories(alloc, kernel)?,
        })
    }

    /// What a line tells that has done this and given the parameters in these slots, by a kernel in the state behind it.
    /// `index` is the number of lines before it.
    fn add(
        &mut self,
        alloc: Global,
        kernel: &Plain,
        doing: &Doing,
        slots: &[Entry],
        index: u32,
    ) -> Result<(), NoMemory>
        requires moment { index + 1 < 2 ^ 32 }
        requires few { length slots.now ≤ 8 }
        ensures changes { OnOk result (self.new.families.changes.items ≡ self.old.families.changes.items ++ changes_by index doing.now.changed (slice_index_or self.old.families.calls doing.now.inc.0 [])) }
        ensures calls { OnOk result (self.new.families.calls ≡ families_by index doing.now self.old.families.calls) }
        ensures params { OnOk result (self.new.params ≡ self.old.params ++ kept_params doing.now.entered (map cap_of slots.now)) }
        ensures histories { OnOk result (self.new.histories.items ≡ noted (index + 1) doing.now kernel.now self.old.histories.items) }
    {
        note(alloc, &mut self.histories, kernel, index + 1, doing)?;
        keep_params(&mut self.params, &doing.entered, slots)?;
        self.families.add(index, doing)
    }
}

/// The lines of a history as they come: a machine makes each step, and its line is told at once.
#[derive(Drop)]
pub struct Retelling {
    /// Where the lines so far have led.
    pub machine: Machine<Plain>,
    /// How many lines there were.
    pub count: u32,
    /// What they tell.
    pub telling: Telling,
}

impl Retelling {
    /// No line of a history of this world has come yet. NoMemory is want of memory.
    pub fn begin(alloc: Global, world: &World) -> Result<Retelling, NoMemory>
        ensures machine { IfOk result (λ r. r.machine ≡ opened world.now) }
        ensures sound { IfOk result (λ r. IsSound world.now r.machine) }
        ensures count { IfOk result (λ r. r.count ≡ 0) }
        ensures changes { IfOk result (λ r. r.telling.families.changes.items ≡ []) }
        ensures calls { IfOk result (λ r. r.telling.families.calls ≡ replicate (opened world.now).state.next_inc.0 []) }
        ensures params { IfOk result (λ r. r.telling.params ≡ []) }
        ensures histories { IfOk result (λ r. r.telling.histories.items ≡ opened_below (opened world.now).state (opened world.now).state.next_name.0) }
    {
        let kernel = Plain::new(alloc, world)?;
        let machine = Machine::open(alloc, world, kernel)?;
        let telling = Telling::begin(alloc, machine.kernel())?;
        Ok(Retelling {
            machine,
            count: 0,
            telling,
        })
    }

    /// Makes the step of a processor, writes its line over the one that is handed in, and tells it. False exactly where the
    /// processor has no step: then what is told stays, and what `line` tells is free. NoMemory is want of memory; nothing is
    /// said then of what is told.
    pub fn step_into(
        &mut self,
        alloc: Global,
        world: &World,
        cpu: Cpu,
        line: &mut Line,
    ) -> Result<bool, NoMemory>
        requires sound { IsSound world.now self.old.machine }
        requires few { self.old.count + 1 < 2 ^ 32 }
        ensures made { IfOk result (λ made. made ≡ true → step world.now self.old.machine cpu ≡ Some (line.new, self.new.machine)) }
        ensures told { IfOk result (λ made. made ≡ true → IsToldMore self.old self.new line.new) }
        ensures none { IfOk result (λ made. made ≡ false → (step world.now self.old.machine cpu ≡ None) × (self.new ≡ self.old)) }
        ensures sound { IsSound world.now self.new.machine }
    {
        let mut known = Known {
            before: None,
            calls: &self.telling.families.calls,
        };
        if !self
            .machine
            .step_watched(alloc, world, cpu, line, &mut known)?
        {
            return Ok(false);
        }
        let before = before_by(known.before, line);
        self.tell(alloc, line, before)?;
        Ok(true)
    }

    /// Tells the line that has led to the machine, of which this was known before it. NoMemory is want of memory.
    fn tell(&mut self, alloc: Global, line: &Line, before: Before) -> Result<(), NoMemory>
        requires { self.old.count + 1 < 2 ^ 32 }
        ensures machine { self.new.machine ≡ self.old.machine }
        ensures count { OnOk result (self.new.count ≡ self.old.count + 1) }
        ensures changes { OnOk result (self.new.telling.families.changes.items ≡ self.old.telling.families.changes.items ++ changes_by self.old.count before.changed (slice_index_or self.old.telling.families.calls before.inc.0 [])) }
        ensures calls { OnOk result (self.new.telling.families.calls ≡ families_by self.old.count (doing_behind before self.old.machine.state) self.old.telling.families.calls) }
        ensures params { OnOk result (self.new.telling.params ≡ self.old.telling.params ++ kept_params (doing_behind before self.old.machine.state).entered (given_params line.now before self.old.machine.state)) }
        ensures histories { OnOk result (self.new.telling.histories.items ≡ noted (self.old.count + 1) (doing_behind before self.old.machine.state) self.old.machine.state self.old.telling.histories.items) }
    {
        let _ = PhantomData::<(Call, Making, Refusal, Reply, Template, What)>; // Rattle is to know what a Line holds
        if !does_nothing(&before) {
            let kernel = self.machine.kernel();
            let doing = doing_behind(before, kernel);
            let slots = param_slots_behind(kernel, line, &before);
            self.telling.add(alloc, kernel, &doing, slots, self.count)?;
        }
        self.count += 1;
        Ok(())
    }

    /// What the lines tell, where no more come. NoMemory is want of memory.
    pub(crate) fn end(self, alloc: Global) -> Result<Telling, NoMemory>
        requires { self.count + 1 < 2 ^ 32 }
        ensures changes { IfOk result (λ t. t.families.changes.items ≡ self.telling.families.changes.items) }
        ensures calls { IfOk result (λ t. t.families.calls ≡ self.telling.families.calls) }
        ensures params { IfOk result (λ t. t.params ≡ self.telling.params) }
        ensures histories { IfOk result (λ t. t.histories.items ≡ finished_below (self.count + 1) (length self.telling.histories.items) self.telling.histories.items) }
    {
        let mut telling = self.telling;
        finish(alloc, &mut telling.histories, self.count + 1)?;
        Ok(telling)
    }
}

/// What the lines of a history tell: each is made once more on a plain kernel, and told as it comes. NoMemory is want of
/// memory.
///
/// `lines` are steps of `world` from its opening on, in the order of the history.
pub(crate) fn retold(alloc: Global, world: &World, lines: &[Line]) -> Result<Retelling, NoMemory>
    requires { AreStepsOf world.now lines.now }
    ensures { IfOk result (λ told. IsRetold world.now lines.now told) }
{
    let _limit = world.limit(); // so that the check knows that it is a world
    let mut told = Retelling::begin(alloc, world)?;
    let mut made = blank_line(Cpu(0));
    for line in lines {
        let _moved = told.step_into(alloc, world, line.cpu, &mut made)?;
    }
    Ok(told)
}
