//! The laws of descent and of environment: where what stands somewhere came from, that a parameter
//! without ENV stays under its call, and that chains and marks tell one descent. They hold of every
//! history, whichever processors made its lines (`docs/RULES.md`, "Descent" and "Marks").
//!
//! A law is a function that does nothing: calling it costs nothing, and gives its caller the law of the
//! lines that it has. The definitions are those of `hk_model`, beside the descent that joins chains and
//! marks (`specs/Joined`), and no law looks at a kernel.
#![tactic(auto)]

ghost use Rattle.hk_model.specs.Running.{AreStepsOf};
ghost use Rattle.hk_model.specs.Descent.{DescentLaw, ChainsFall};
ghost use Rattle.hk_model.specs.Marks.{EnvironmentLaw};
ghost use Rattle.hk_descent.specs.Joined.{AreOneDescent};

use hk_model::{Line, World};

/// The descent law (`docs/RULES.md`, "Descent"): at every moment of a history, what stands in a slot
/// or in a list descends by the chain of its place. The chain goes back, line by line, to the opening
/// or to the call that made the entry. Every capability in it names the same object, and has no right
/// that its origin lacks, but those that a template for the object's type gives, which are never
/// MODIFY, ENV or UNCONF. A template stays as it was made.
///
/// `lines` are steps of `world` from its opening on, in the order of the history.
#[tactic(auto, using(crate::proofs::Chains::descent))]
pub fn descent_law(world: &World, lines: &[Line])
    requires { AreStepsOf world.now lines.now }
    ensures { DescentLaw world.now lines.now }
{}

/// The environment law (`docs/RULES.md`, "Marks"): a parameter without ENV stays under its call. At
/// every moment from the call's beginning on, each place that is marked for the parameter, since what
/// stands there descends from it, is a slot of a live incarnation under the call. Once the call has
/// gone, by a return or a halt, no place is marked.
///
/// `lines` are steps of `world` from its opening on, in the order of the history.
#[tactic(auto, using(crate::proofs::Environment::environment))]
pub fn environment_law(world: &World, lines: &[Line])
    requires { AreStepsOf world.now lines.now }
    ensures { EnvironmentLaw world.now lines.now }
{}

/// The lines of a chain (`docs/RULES.md`, "Descent"): at every moment of a history, the numbers of the
/// lines of each place's chain fall from its first link on, and none is greater than the moment.
///
/// `lines` are steps of `world` from its opening on, in the order of the history.
pub fn chain_lines_law(world: &World, lines: &[Line])
    requires { AreStepsOf world.now lines.now }
    ensures { ChainsFall world.now lines.now }
{}

/// Chains and marks are one descent (`docs/RULES.md`, "Marks"). At every moment, what stands at a place
/// has a chain that leads back to another place at an earlier moment exactly where it came from there,
/// line by line, by the origins of what was written. A place is marked for a parameter without ENV
/// exactly where what stands there came from the parameter, line by line, by origins and by the walks of
/// a Load and a Copy, which count all that they pass. So a place whose chain leads back to the parameter
/// is marked, and the environment law speaks of all that descends from it.
///
/// `lines` are steps of `world` from its opening on, in the order of the history.
#[tactic(auto, using(crate::proofs::Joined::one_descent))]
pub fn one_descent_law(world: &World, lines: &[Line])
    requires { AreStepsOf world.now lines.now }
    ensures { AreOneDescent world.now lines.now }
{}
