//! What takes an event back (`docs/RULES.md`, "Lines taken back").

use crate::changes::Saved;
use hk_model::{Inc, Incarnation, Name, Object};
use std::marker::Model;

/// What an event changed. Contracts see the saved parts, and what went in the order in which it went.
#[derive(Drop)]
pub struct Inverse {
    pub(crate) saved: Saved,
    pub(crate) gone: Vec<(Name, Object)>,
    pub(crate) left: Vec<(Inc, Incarnation)>,
}

impl Model for Inverse {
    ghost use Rattle.hk_plain.specs.Changes.{Changes};

    ghost Value = { Changes };

    ghost view = { λ i. record { saved = i.saved; gone = i.gone.items; left = i.left.items } };
}
