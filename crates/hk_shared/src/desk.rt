//! The desk over a shared kernel (`docs/TURNS.md`, "The desk").

ghost use Rattle.std.specs.Prelude.{◌≡◌, ◌<◌, ◌^◌, ◌++◌, length};
ghost use Rattle.hk_turn.specs.Passes.{seen_list};
ghost use Rattle.hk_turn.specs.Turns.{IsPassAfter, found_list, turn_number, turn_value};
ghost use Rattle.hk_shared.specs.Books.{IsBoxedBookOf, IsOwnedBy, added};

use crate::boxed::BoxedBook;
use crate::naming::Naming;
use crate::shared::Shared;
use hk_model::{Cpu, Kernel, Proc, Todo};
use hk_procs::{Asked, Called, Desk, Noted};
use hk_program::Context;
use hk_turn::{Pass, Turn};
use std::alloc::Global;
use std::sync::Wait;

impl<K: Kernel, J: Naming> Desk for Shared<K, J> {
    ghost use Rattle.std.specs.Prelude.{◌<◌};
    ghost use Rattle.hk_turn.specs.Passes.{pass_number};
    ghost use Rattle.hk_turn.specs.Turns.{IsPassOf};

    ghost world = { J.world };

    ghost wants = { K.wants };

    ghost belongs = { λ desk pass. IsPassOf desk.turns pass × (pass_number pass < 16) };

    ghost few = { λ desk pass own. own.1 };

    fn ask<R: Wait>(&self, rt: &R, pass: Pass<Noted>) -> (Pass<Noted>, Asked) {
        let cpu = Cpu(pass.number() as u8);
        let mut turn = self.turns.take(rt, pass);
        let (note, asked) = turn.value().ask(cpu);
        (give_back(turn, note), asked)
    }

    fn call<R: Wait>(
        &self,
        rt: &R,
        alloc: Global,
        pass: Pass<Noted>,
        proc: Proc,
        context: Context,
        next: Todo,
    ) -> (Pass<Noted>, Called) {
        let cpu = Cpu(pass.number() as u8);
        let mut turn = self.turns.take(rt, pass);
        let (note, called) = turn.value().call(alloc, cpu, proc, context, next);
        (give_back(turn, note), called)
    }
}

/// Gives a turn back with a note of its pass, if there is one.
fn give_back<K: Kernel, J: Naming>(
    turn: Turn<'_, BoxedBook<K, J>>,
    note: Option<Noted>,
) -> Pass<Noted>
    requires stands { IsBoxedBookOf K.state J.world (turn_value turn) (found_list turn ++ added note) }
    requires own { IsOwnedBy (turn_number turn) note }
    requires room { length (found_list turn) < 2 ^ 62 }
    ensures pass { IsPassAfter turn.entry result }
    ensures seen { seen_list result ≡ found_list turn.entry ++ added note }
{
    match note {
        Some(note) => turn.finish(note),
        None => turn.back(),
    }
}
