//! The parts of the table, as one state.

ghost use Rattle.std.specs.Prelude.{◌≡◌};

use crate::stacks::Stacks;
use hk_model::Name;
use hk_objects::Objects;
use hk_queues::Queues;
use hk_reclaim::Counts;
use hk_running::Processes;
use hk_walk::Walker;
use std::marker::Model;

/// Objects in slots, stacks and lists by index. Contracts see the state (`docs/RULES.md`, "Objects, incarnations, processes").
#[derive(Drop)]
pub struct Parts {
    pub(crate) objects: Objects,
    pub(crate) queues: Queues,
    pub(crate) processes: Processes,
    pub(crate) stacks: Stacks,
    // What was walked lately.
    pub(crate) walker: Walker,
    // How often each object is named.
    pub(crate) counts: Counts,
    pub(crate) first_new: Name,
    pub(crate) events: u32,
    pub(crate) limit: u32,
}

impl Model for Parts {
    ghost use Rattle.hk_model.specs.State.{State};
    ghost use Rattle.hk_objects.specs.Slots.{standing};
    ghost use Rattle.hk_table.specs.Whole.{whole};
    ghost use Rattle.hk_table.specs.Stacked.{live_from};
    ghost use Rattle.hk_table.specs.Told.{AreParts};

    ghost Value = { State };

    ghost view = { λ t. record {
      objects = standing (whole t.objects.slots t.queues.waiting);
      incarnations = live_from 0 t.stacks.stacks;
      processes = t.processes;
      ready = t.queues.ready;
      next_name = t.objects.next;
      next_inc = t.stacks.next;
      first_new = t.first_new;
      events = t.events;
      limit = t.limit;
    } };

    ghost invariant = { λ t. AreParts t.objects t.queues t.processes t.stacks t.walker t.first_new t.counts };
}
