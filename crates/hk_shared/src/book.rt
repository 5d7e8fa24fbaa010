//! What processors share (`docs/TURNS.md`, "The shared kernel").

ghost use Rattle.std.specs.Prelude.{◌≡◌};
ghost use Rattle.hk_procs.specs.declared.notes.Noted.TheVariants.{Event};

use crate::naming::Naming;
use hk_model::{Cpu, Kernel, Line, World};
use hk_procs::Noted;
use hk_program::Context;
use std::marker::PhantomData;

/// A kernel with its lines, and with the contexts of the processes that no processor runs.
///
/// It stands for the list of its lines, and its stop after them if there is one (`BoxedBook`).
/// `docs/TURNS.md`, "The shared kernel".
#[derive(Drop)]
pub struct Book<K: Kernel, J: Naming> {
    pub(crate) world: World,
    pub(crate) kernel: K,
    pub(crate) lines: Vec<Line>,
    // By the numbers of the processes, at least of those that are ready or wait.
    pub(crate) contexts: Vec<Option<Context>>,
    pub(crate) stop: Option<Cpu>,
    pub(crate) of: PhantomData<J>,
}

impl<K: Kernel, J: Naming> Book<K, J> {
    /// The lines, in their order.
    pub fn lines(&self) -> &[Line]
        ensures { result.now ≡ self.now.lines.items }
    {
        self.lines.as_slice()
    }

    /// The kernel as it stands.
    pub fn kernel(&self) -> &K
        ensures { result.now ≡ self.now.kernel }
    {
        &self.kernel
    }

    /// The processor that has stopped for want of memory. None exactly where there is none.
    pub fn stop(&self) -> Option<Cpu>
        ensures { result ≡ self.now.stop }
    {
        self.stop
    }

    /// The kernel as it stands.
    pub fn into_kernel(self) -> K
        ensures { result ≡ self.kernel }
    {
        let Book {
            world: _,
            kernel,
            lines: _,
            contexts: _,
            stop: _,
            of: _,
        } = self;
        kernel
    }
}

/// The note of a line.
pub(crate) fn noted(line: &Line) -> Noted
    ensures { result ≡ Event line.now }
{
    Noted::Event(*line)
}
