//! The way back from a place, over what was kept of the lines (`docs/RULES.md`, "Descent").

ghost use Rattle.std.specs.Prelude.{◌≡◌, ◌<◌, ◌^◌, length, map, IfOk};
ghost use Rattle.hk_trace.specs.Writings.{way_back};
ghost use Rattle.hk_trace.specs.Uses.{chain_found};

use crate::chains::{Chain, Link, Origin, Place};
use crate::using::UsedPlace;
use crate::writings::{CameFrom, Writing, source_in};
use hk_model::{Entry, Items, NoMemory, Template};
use std::alloc::Global;
use std::marker::PhantomData;

/// The links that lead back from a place, and where they end.
#[derive(Drop)]
pub struct WayBack {
    /// From the latest back.
    pub links: Items<Link>,
    /// Where it ends.
    pub origin: Origin,
}

/// The way back from a place after these writings.
fn follow(alloc: Global, writings: &[Writing], from: Place) -> Result<WayBack, NoMemory>
    requires { length writings.now < 2 ^ 32 }
    ensures { IfOk result (λ found. found ≡ way_back writings.now (length writings.now) from) }
{
    let _ = PhantomData::<(Entry, Template)>; // Rattle is to know what an Entry holds
    let mut links = Vec::new(alloc);
    let mut place = from;
    let mut line = writings.len();
    while line > 0 {
        let source = source_in(&writings[line - 1], place);
        match &source {
            CameFrom::Nowhere => {}
            CameFrom::Came(from) => {
                let line = line as u32;
                place = from.place;
                links.push(Link { line, from: *from })?;
            }
            CameFrom::Made => {
                return Ok(WayBack {
                    links: Items::from_vec(links),
                    origin: Origin::Made(line as u32),
                });
            }
        }
        line -= 1;
    }
    Ok(WayBack {
        links: Items::from_vec(links),
        origin: Origin::Opening,
    })
}

/// The chain of each place that was used after these writings. NoMemory is want of memory.
pub(crate) fn chains_of(
    alloc: Global,
    writings: &[Writing],
    used: &[UsedPlace],
) -> Result<Vec<Chain>, NoMemory>
    requires { length writings.now < 2 ^ 32 }
    ensures { IfOk result (λ chains. chains.items ≡ map (chain_found writings.now) used.now) }
{
    let _ = PhantomData::<(Entry, Template)>; // Rattle is to know what an Entry holds
    let mut all = Vec::new(alloc);
    for one in used {
        let found = follow(alloc, writings, one.at.place)?;
        all.push(Chain {
            step: one.step,
            at: one.at,
            links: found.links,
            origin: found.origin,
        })?;
    }
    Ok(all)
}
