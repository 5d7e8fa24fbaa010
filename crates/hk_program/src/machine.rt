//! A kernel with the control of its processes, and the steps of processors.

ghost use Rattle.std.specs.Prelude.{◌≡◌, ◌<◌, [], ◌∷◌, true, false, length, map, IfOk, OnOk, OnErr, IfSome, IfNone, IsSome, IsTrue, Some, None};
ghost use Rattle.hk_model.specs.declared.calls.Call.{Call};
ghost use Rattle.hk_model.specs.declared.calls.Reply.{Reply};
ghost use Rattle.hk_model.specs.declared.world.Task.{Task};
ghost use Rattle.hk_model.specs.Opening.{opening};
ghost use Rattle.hk_model.specs.Control as control;
ghost use Rattle.hk_model.specs.Control.{new_frame};
ghost use Rattle.hk_model.specs.Processors.{runner, running_on, may_step, process_on, acted_on, entered_on};
ghost use Rattle.hk_model.specs.Running.{opened, step, turn};
ghost use Rattle.hk_program.specs.Contexts.{AreFrames};
ghost use Rattle.hk_program.specs.Machines.{IsSound};
ghost use Rattle.hk_program.specs.Watching.{seen_in_step, seen_of};

use crate::carrying::{blank_line, carry_into};
use crate::context::Context;
use crate::watching::{Nobody, Watch};
use hk_model::limits::CPU_LIMIT;
use hk_model::{Call, Cpu, Kernel, Line, NoMemory, Proc, Reply, Task, Todo, What, World};
use std::alloc::Global;
use std::marker::Model;

/// A kernel with the control of each process of its world (`docs/RULES.md`, "Steps of
/// processors"). Contracts see the state of the kernel and the frames of each process.
#[derive(Drop)]
pub struct Machine<K: Kernel> {
    pub(crate) kernel: K,
    // By the numbers of the processes.
    pub(crate) contexts: Vec<Context>,
}

impl<K: Kernel> Model for Machine<K> {
    ghost use Rattle.hk_model.specs.Running.{Machine};

    ghost Value = { Machine };

    ghost view = { λ a. record { state = K.state a.kernel; contexts = a.contexts.items } };
}

impl<K: Kernel> Machine<K> {
    /// The machine in which a world opens, of a kernel that has opened it. NoMemory is want of
    /// memory.
    #[tactic(auto, unfolding(hk_model::specs::Running::opened))]
    pub fn open(alloc: Global, world: &World, kernel: K) -> Result<Machine<K>, NoMemory>
        requires { K.state kernel ≡ opening world.now }
        ensures opened { IfOk result (λ machine. machine ≡ opened world.now) }
        ensures sound { IfOk result (λ machine. IsSound world.now machine) }
    {
        let contexts = beginnings(alloc, world.tasks())?;
        Ok(Machine { kernel, contexts })
    }

    /// Makes the step of a processor, and gives its line. None exactly where the processor has no
    /// step; then nothing changes. NoMemory is want of memory for the kernel's call; then no event
    /// was made, and nothing changes.
    pub fn step(&mut self, alloc: Global, world: &World, cpu: Cpu) -> Result<Option<Line>, NoMemory>
        requires { IsSound world.now self.old }
        ensures made { IfOk result (λ line. IfSome line (λ line. step world.now self.old cpu ≡ Some (line, self.new))) }
        ensures none { IfOk result (λ line. IfNone line ((step world.now self.old cpu ≡ None) × (self.new ≡ self.old))) }
        ensures err { OnErr result (self.new ≡ self.old) }
        ensures sound { IsSound world.now self.new }
    {
        let mut line = blank_line(cpu);
        if self.step_into(alloc, world, cpu, &mut line)? {
            Ok(Some(line))
        } else {
            Ok(None)
        }
    }

    /// Makes the step of a processor, and writes its line over the one that is handed in. False exactly
    /// where the processor has no step. NoMemory is want of memory for the kernel's call. In both cases no
    /// event was made, and the machine stays as it was; what the line then tells is free.
    pub fn step_into(
        &mut self,
        alloc: Global,
        world: &World,
        cpu: Cpu,
        line: &mut Line,
    ) -> Result<bool, NoMemory>
        requires { IsSound world.now self.old }
        ensures made { IfOk result (λ made. made ≡ true → step world.now self.old cpu ≡ Some (line.new, self.new)) }
        ensures none { IfOk result (λ made. made ≡ false → (step world.now self.old cpu ≡ None) × (self.new ≡ self.old)) }
        ensures err { OnErr result (self.new ≡ self.old) }
        ensures sound { IsSound world.now self.new }
    {
        self.step_watched(alloc, world, cpu, line, &mut Nobody)
    }

    /// The same, where somebody is shown the call that is made, if one is, before the kernel answers it. Where no event
    /// was made, it is free what they have seen. False and NoMemory are those of `step_into`.
    #[inline(always)]
    pub fn step_watched<W: Watch<K>>(
        &mut self,
        alloc: Global,
        world: &World,
        cpu: Cpu,
        line: &mut Line,
        watch: &mut W,
    ) -> Result<bool, NoMemory>
        requires { IsSound world.now self.old }
        ensures made { IfOk result (λ made. made ≡ true → step world.now self.old cpu ≡ Some (line.new, self.new)) }
        ensures seen { IfOk result (λ made. made ≡ true → watch.new ≡ seen_in_step W.seen world.now self.old cpu watch.old) }
        ensures none { IfOk result (λ made. made ≡ false → (step world.now self.old cpu ≡ None) × (self.new ≡ self.old)) }
        ensures err { OnErr result (self.new ≡ self.old) }
        ensures sound { IsSound world.now self.new }
    {
        if cpu.0 >= CPU_LIMIT {
            return Ok(false);
        }
        if self.kernel.limit_reached() {
            return Ok(false);
        }
        match self.kernel.current(cpu) {
            Some((proc, inc)) => {
                line.cpu = cpu;
                line.proc = proc;
                line.inc = inc;
                self.event(alloc, world, line, watch)?;
                Ok(true)
            }
            None => Ok(self.dispatch(world, cpu, line)),
        }
    }

    /// The event of the process that the processor of a line runs, in its current incarnation, which the line
    /// names.
    fn event<W: Watch<K>>(
        &mut self,
        alloc: Global,
        world: &World,
        line: &mut Line,
        watch: &mut W,
    ) -> Result<(), NoMemory>
        requires sound { IsSound world.now self.old }
        requires cpu { line.old.cpu.0 < 16 }
        requires below { IsTrue (may_step self.old.state) }
        requires runs { running_on self.old.state line.old.cpu ≡ Some (line.old.proc, line.old.inc) }
        ensures made { OnOk result (step world.now self.old line.old.cpu ≡ Some (line.new, self.new)) }
        ensures seen { OnOk result (watch.new ≡ seen_in_step W.seen world.now self.old line.old.cpu watch.old) }
        ensures err { OnErr result (self.new ≡ self.old) }
    {
        let context = &mut self.contexts[line.proc.0 as usize];
        turn(alloc, &mut self.kernel, context, world, line, watch)?;
        Ok(())
    }

    /// The dispatch of the first ready process. False exactly where none is ready.
    fn dispatch(&mut self, world: &World, cpu: Cpu, line: &mut Line) -> bool
        requires sound { IsSound world.now self.old }
        requires cpu { cpu.0 < 16 }
        requires below { IsTrue (may_step self.old.state) }
        requires idle { running_on self.old.state cpu ≡ None }
        ensures given { result ≡ true → step world.now self.old cpu ≡ Some (line.new, self.new) }
        ensures none { result ≡ false → (step world.now self.old cpu ≡ None) × (self.new ≡ self.old) }
    {
        let Some(proc) = self.kernel.dispatch(cpu) else {
            return false;
        };
        match self.kernel.current(cpu) {
            Some((_, inc)) => {
                *line = Line {
                    cpu,
                    proc,
                    inc,
                    what: What::Dispatch,
                    reply: Reply::Done,
                };
                true
            }
            None => unreachable!(),
        }
    }

    /// The kernel.
    pub fn kernel(&self) -> &K
        ensures { K.state result.now ≡ self.now.state }
    {
        &self.kernel
    }

    /// The kernel.
    pub fn into_kernel(self) -> K
        ensures { K.state result ≡ self.state }
    {
        self.kernel
    }
}

/// The context of each process as it begins (`docs/RULES.md`, "Control of a process"), by the numbers of
/// the processes. NoMemory is want of memory.
pub fn beginnings(alloc: Global, tasks: &[Task]) -> Result<Vec<Context>, NoMemory>
    ensures { IfOk result (λ contexts. contexts.items ≡ map (λ (t : Task). new_frame t.code ∷ []) tasks.now) }
{
    let mut contexts = Vec::with_capacity(alloc, tasks.len())?;
    for task in tasks {
        contexts.push(Context::new(alloc, task.code)?)?;
    }
    Ok(contexts)
}

/// The event of the process that the processor of a line runs, whose context this is. The line then tells
/// what was done, and the reply. After NoMemory nothing but the line has changed.
fn turn<K: Kernel, W: Watch<K>>(
    alloc: Global,
    kernel: &mut K,
    context: &mut Context,
    world: &World,
    line: &mut Line,
    watch: &mut W,
) -> Result<(), NoMemory>
    requires frames { AreFrames world.now context.old }
    requires runs { running_on (K.state kernel.old) line.old.cpu ≡ Some (line.old.proc, line.old.inc) }
    requires below { IsTrue (may_step (K.state kernel.old)) }
    requires code { (call : Call) → (reply : Reply) → IfSome (entered_on (K.state kernel.old) line.old.cpu call reply) (λ code. code < length world.now.codes) }
    requires room { (call : Call) → IfSome (entered_on (K.state kernel.old) line.old.cpu call (acted_on (K.state kernel.old) line.old.cpu call).0) (λ _. length context.old < 64) }
    ensures made { OnOk result (turn world.now (K.state kernel.old) (process_on (K.state kernel.old) line.old.cpu) (control.next world.now context.old) ≡ (line.new.what, line.new.reply, K.state kernel.new, context.new)) }
    ensures who { OnOk result (line.new ≡ record line.old { what = line.new.what; reply = line.new.reply }) }
    ensures seen { OnOk result (watch.new ≡ seen_of W.seen (K.state kernel.old) line.old.inc (control.next world.now context.old).0 watch.old) }
    ensures err { OnErr result ((K.state kernel.new ≡ K.state kernel.old) × (context.new ≡ context.old)) }
{
    let frame = context.top();
    let mut todo = Todo::Halt;
    context.run_top(world, &mut todo);
    show(kernel, line, &todo, watch);
    match carry_into(alloc, kernel, context, world, &todo, line) {
        Ok(_gone) => Ok(()),
        Err(error) => {
            if let Some(frame) = frame {
                context.put_top(frame);
            }
            Err(error)
        }
    }
}

/// Shows the call that is next of the process of a line, if one is.
#[inline(always)]
fn show<K: Kernel, W: Watch<K>>(kernel: &K, line: &Line, todo: &Todo, watch: &mut W)
    requires { running_on (K.state kernel.now) line.now.cpu ≡ Some (line.now.proc, line.now.inc) }
    ensures { watch.new ≡ seen_of W.seen (K.state kernel.now) line.now.inc todo.now watch.old }
{
    match todo {
        Todo::Do(call) => watch.see(kernel, line.cpu, line.inc, call),
        Todo::Halt => {}
    }
}
