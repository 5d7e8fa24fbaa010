//! Who looks on as processes make their calls.

use hk_model::{Call, Cpu, Inc, Kernel};

/// Somebody who is shown each call that is made, and by whom, before the kernel answers it
/// (`docs/RULES.md`, "Steps of processors").
pub trait Watch<K: Kernel> {
    ghost use Rattle.std.specs.Prelude.{◌≡◌, option_map, Some};
    ghost use Rattle.hk_model.specs.declared.calls.Call.{Call};
    ghost use Rattle.hk_model.specs.declared.names.Inc.{Inc};
    ghost use Rattle.hk_model.specs.declared.names.Proc.{Proc};
    ghost use Rattle.hk_model.specs.State.{State};
    ghost use Rattle.hk_model.specs.Processors.{running_on};

    /// What somebody who was this is, once the call is shown that an incarnation makes in this state.
    ghost seen: { Self → State → Inc → Call → Self };

    /// Is shown the call of the incarnation that the processor runs, by the kernel in the state before it.
    fn see(&mut self, kernel: &K, cpu: Cpu, inc: Inc, call: &Call)
        requires { option_map (λ (x : Proc × Inc). x.1) (running_on (K.state kernel.now) cpu) ≡ Some inc }
        ensures { self.new ≡ seen self.old (K.state kernel.now) inc call.now };
}

/// Nobody.
#[derive(Drop)]
pub struct Nobody;

impl<K: Kernel> Watch<K> for Nobody {
    ghost seen = { λ nobody s inc call. nobody };

    #[inline(always)]
    fn see(&mut self, _kernel: &K, _cpu: Cpu, _inc: Inc, _call: &Call) {}
}
