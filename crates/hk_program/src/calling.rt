//! The kernel call of an instruction.

ghost use Rattle.std.specs.Prelude.{◌≡◌, false};
ghost use Rattle.hk_model.specs.declared.calls.Call.TheVariants as call;
ghost use Rattle.hk_model.specs.Limits.{code_limit};
ghost use Rattle.hk_model.specs.WorldValue.{IsInstr, IsOperand, IsRoute};
ghost use Rattle.hk_model.specs.Control.{meaning, operand, path_of};
ghost use Rattle.hk_program.specs.Meanings.{todo_in, is_word_call, is_list_call, is_object_call};

use crate::operands::{path, worth};
use hk_model::{Args, Call, Frame, Instr, Making, Operand, Route, Slot, Todo};

// Each call is made by a function of its own, so that none of the others is laid out in memory, and written where it is
// to stand.

/// Writes what an instruction makes a frame do: a call, or a halt exactly where the instruction is local.
pub(crate) fn write_todo(frame: &Frame, instr: &Instr, todo: &mut Todo)
    requires { IsInstr code_limit instr.now }
    ensures { todo.new ≡ todo_in (meaning frame.now instr.now) }
{
    match instr {
        Instr::Get { of, at, .. } => *todo = Todo::Do(get(frame, of, at)),
        Instr::Put { of, at, word } => *todo = Todo::Do(put(frame, of, at, word)),
        Instr::Add { of, word } => *todo = Todo::Do(add(frame, of, word)),
        Instr::Length { of, .. } => *todo = Todo::Do(length(frame, of)),
        Instr::Look { of, .. } => *todo = Todo::Do(look(frame, of)),
        _ => write_list_call(frame, instr, todo),
    }
}

/// The call of an instruction that moves entries, or of one of the functions below.
fn write_list_call(frame: &Frame, instr: &Instr, todo: &mut Todo)
    requires valid { IsInstr code_limit instr.now }
    requires no_word { is_word_call instr.now ≡ false }
    ensures { todo.new ≡ todo_in (meaning frame.now instr.now) }
{
    match instr {
        Instr::Load { from, into } => *todo = Todo::Do(load(frame, from, *into)),
        Instr::Store { list, at, from } => *todo = Todo::Do(store(frame, list, at, *from)),
        Instr::Append { list, from } => *todo = Todo::Do(append(frame, list, *from)),
        Instr::Erase { list, at } => *todo = Todo::Do(erase(frame, list, at)),
        Instr::Drop { slot } => *todo = Todo::Do(Call::Drop { slot: *slot }),
        Instr::Restrict { slot, keep } => {
            *todo = Todo::Do(Call::Restrict {
                slot: *slot,
                keep: *keep,
            });
        }
        _ => write_object_call(frame, instr, todo),
    }
}

/// The call of an instruction that makes a template, an object or a capability, or of one below.
fn write_object_call(frame: &Frame, instr: &Instr, todo: &mut Todo)
    requires valid { IsInstr code_limit instr.now }
    requires no_word { is_word_call instr.now ≡ false }
    requires no_list { is_list_call instr.now ≡ false }
    ensures { todo.new ≡ todo_in (meaning frame.now instr.now) }
{
    match instr {
        Instr::MakeTemplate { of, making, into } => {
            *todo = Todo::Do(make_template(frame, of, *making, *into));
        }
        Instr::Create { by, into } => *todo = Todo::Do(create(frame, by, *into)),
        Instr::Merge { with, cap, into } => *todo = Todo::Do(merge(frame, with, *cap, *into)),
        Instr::Copy { of, into } => *todo = Todo::Do(copy(frame, of, *into)),
        _ => write_process_call(frame, instr, todo),
    }
}

/// The call of an instruction by which a process enters, returns, waits, wakes or yields.
fn write_process_call(frame: &Frame, instr: &Instr, todo: &mut Todo)
    requires valid { IsInstr code_limit instr.now }
    requires no_word { is_word_call instr.now ≡ false }
    requires no_list { is_list_call instr.now ≡ false }
    requires no_object { is_object_call instr.now ≡ false }
    ensures { todo.new ≡ todo_in (meaning frame.now instr.now) }
{
    match instr {
        Instr::Enter { proc, args, into } => *todo = Todo::Do(enter(frame, proc, args, *into)),
        Instr::Leave { give } => *todo = Todo::Do(Call::Leave { give: *give }),
        Instr::P { of } => *todo = Todo::Do(take(frame, of)),
        Instr::V { of } => *todo = Todo::Do(give(frame, of)),
        Instr::Yield => *todo = Todo::Do(Call::Yield),
        _ => *todo = Todo::Halt,
    }
}

/// The call that reads a word.
#[inline(always)]
fn get(frame: &Frame, of: &Route, at: &Operand) -> Call
    requires of { IsRoute of.now }
    requires at { IsOperand at.now }
    ensures { result ≡ call.Get (path_of frame.now of.now) (operand frame.now at.now) }
{
    Call::Get {
        of: path(frame, of),
        at: worth(frame, at),
    }
}

/// The call that writes a word.
#[inline(always)]
fn put(frame: &Frame, of: &Route, at: &Operand, word: &Operand) -> Call
    requires of { IsRoute of.now }
    requires at { IsOperand at.now }
    requires word { IsOperand word.now }
    ensures { result ≡ call.Put (path_of frame.now of.now) (operand frame.now at.now) (operand frame.now word.now) }
{
    Call::Put {
        of: path(frame, of),
        at: worth(frame, at),
        word: worth(frame, word),
    }
}

/// The call that adds a word.
#[inline(always)]
fn add(frame: &Frame, of: &Route, word: &Operand) -> Call
    requires of { IsRoute of.now }
    requires word { IsOperand word.now }
    ensures { result ≡ call.Add (path_of frame.now of.now) (operand frame.now word.now) }
{
    Call::Add {
        of: path(frame, of),
        word: worth(frame, word),
    }
}

/// The call that tells the number of words.
#[inline(always)]
fn length(frame: &Frame, of: &Route) -> Call
    requires { IsRoute of.now }
    ensures { result ≡ call.Length (path_of frame.now of.now) }
{
    Call::Length {
        of: path(frame, of),
    }
}

/// The call that tells what stands at the end of a path.
#[inline(always)]
fn look(frame: &Frame, of: &Route) -> Call
    requires { IsRoute of.now }
    ensures { result ≡ call.Look (path_of frame.now of.now) }
{
    Call::Look {
        of: path(frame, of),
    }
}

/// The call that copies an entry into a slot.
#[inline(always)]
fn load(frame: &Frame, from: &Route, into: Slot) -> Call
    requires { IsRoute from.now }
    ensures { result ≡ call.Load (path_of frame.now from.now) into }
{
    Call::Load {
        from: path(frame, from),
        into,
    }
}

/// The call that writes an entry of a list.
#[inline(always)]
fn store(frame: &Frame, list: &Route, at: &Operand, from: Slot) -> Call
    requires list { IsRoute list.now }
    requires at { IsOperand at.now }
    ensures { result ≡ call.Store (path_of frame.now list.now) (operand frame.now at.now) from }
{
    Call::Store {
        list: path(frame, list),
        at: worth(frame, at),
        from,
    }
}

/// The call that adds an entry to a list.
#[inline(always)]
fn append(frame: &Frame, list: &Route, from: Slot) -> Call
    requires { IsRoute list.now }
    ensures { result ≡ call.Append (path_of frame.now list.now) from }
{
    Call::Append {
        list: path(frame, list),
        from,
    }
}

/// The call that empties an entry of a list.
#[inline(always)]
fn erase(frame: &Frame, list: &Route, at: &Operand) -> Call
    requires list { IsRoute list.now }
    requires at { IsOperand at.now }
    ensures { result ≡ call.Erase (path_of frame.now list.now) (operand frame.now at.now) }
{
    Call::Erase {
        list: path(frame, list),
        at: worth(frame, at),
    }
}

/// The call that makes a template.
#[inline(always)]
fn make_template(frame: &Frame, of: &Route, making: Making, into: Slot) -> Call
    requires { IsRoute of.now }
    ensures { result ≡ call.MakeTemplate (path_of frame.now of.now) making into }
{
    Call::MakeTemplate {
        of: path(frame, of),
        making,
        into,
    }
}

/// The call that makes an object.
#[inline(always)]
fn create(frame: &Frame, by: &Route, into: Slot) -> Call
    requires { IsRoute by.now }
    ensures { result ≡ call.Create (path_of frame.now by.now) into }
{
    Call::Create {
        by: path(frame, by),
        into,
    }
}

/// The call that merges a capability with a template.
#[inline(always)]
fn merge(frame: &Frame, with: &Route, cap: Slot, into: Slot) -> Call
    requires { IsRoute with.now }
    ensures { result ≡ call.Merge (path_of frame.now with.now) cap into }
{
    Call::Merge {
        with: path(frame, with),
        cap,
        into,
    }
}

/// The call that copies an object.
#[inline(always)]
fn copy(frame: &Frame, of: &Route, into: Slot) -> Call
    requires { IsRoute of.now }
    ensures { result ≡ call.Copy (path_of frame.now of.now) into }
{
    Call::Copy {
        of: path(frame, of),
        into,
    }
}

/// The call that enters a procedure.
#[inline(always)]
fn enter(frame: &Frame, proc: &Route, args: &Args, into: Slot) -> Call
    requires { IsRoute proc.now }
    ensures { result ≡ call.Enter (path_of frame.now proc.now) args.now into }
{
    Call::Enter {
        proc: path(frame, proc),
        args: *args,
        into,
    }
}

/// The call that takes a token.
#[inline(always)]
fn take(frame: &Frame, of: &Route) -> Call
    requires { IsRoute of.now }
    ensures { result ≡ call.P (path_of frame.now of.now) }
{
    Call::P {
        of: path(frame, of),
    }
}

/// The call that gives a token.
#[inline(always)]
fn give(frame: &Frame, of: &Route) -> Call
    requires { IsRoute of.now }
    ensures { result ≡ call.V (path_of frame.now of.now) }
{
    Call::V {
        of: path(frame, of),
    }
}
