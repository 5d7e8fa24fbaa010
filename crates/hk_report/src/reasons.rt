//! Why a change under a confined call could be made (`docs/RULES.md`, "Changes and their reasons").

ghost use Rattle.std.specs.Prelude.{◌≡◌, ◌<◌, ◌≤◌, ◌^◌, ◌+◌, [], length, vec_len, IfOk, IfSome, OnOk, string_bytes};
ghost use Rattle.hk_report.specs.Runs.{AreRuns, AreRuns-prop, AreOrdered, AreOrdered-prop};
ghost use Rattle.hk_report.specs.Blocks.{AreBlocked, AreBlocked-prop};
ghost use Rattle.std.specs.List.{AllByRecursion};
ghost use Rattle.hk_report.specs.declared.reachable.Side.TheVariants.{Last};
ghost use Rattle.hk_report.specs.Reachable.{moment_at, from_end, AreHeldBy, AreReachable, IsClosed, IsClosed-prop, IsEnough};
ghost use Rattle.hk_report.specs.HeldBlocks.{AreHeldBlocked, AreHeldBlocked-prop};
ghost use Rattle.hk_report.specs.Holders.{AreHolders};
ghost use Rattle.hk_report.specs.Keeping.{AreKeptOf};
ghost use Rattle.hk_report.specs.Reasons.{params_at, IsReasoned, IsTold, AreFew, AreTold};
ghost use Rattle.hk_report.specs.Written.{AreWritten};

use crate::blocks::{Block, all_blocks};
use crate::families::{BareChange, Begun, KeptChange};
use crate::held_blocks::{HeldBlock, held_blocks};
use crate::histories::History;
use crate::holders::{Stretch, holders};
use crate::hops::{Ground, is_made};
use crate::keeping::Keeping;
use crate::lists::Lists;
use crate::params::GivenParams;
use crate::reachable::{Side, lasts, reachable};
use crate::replay::Telling;
use crate::runs::{all_ends, rearrange_all};
use crate::searching::{Search, direct_param};
use crate::texts::write_change;
use hk_model::{Change, Items, NoMemory, Reach};
use std::alloc::Global;

/// The runs of what has stood in lists.
#[derive(Drop)]
pub(crate) struct Runs {
    /// The places at which those of each list end, by the name of its object.
    pub ends: Vec<Items<usize>>,
    /// The blocks of those of each list, by the name of its object.
    pub blocks: Vec<Items<Block>>,
    /// Those that hold each object, by its name.
    pub holders: Vec<Items<Stretch>>,
    /// The last moments at which calls can begin that come to each object, by its name, counted back.
    pub lasts: Vec<Option<u32>>,
    /// The blocks of the runs that hold each object, by its name.
    pub held_blocks: Vec<Items<HeldBlock>>,
}

/// What the reasons of changes are found in.
#[derive(Clone, Copy)]
pub(crate) struct Grounds<'a> {
    /// What has stood in the list of each object, by its name.
    pub histories: &'a [History],
    /// The confined calls that each incarnation is under, by its number.
    pub families: &'a Lists<Begun>,
    /// The merged parameters of each call that a line has begun, in the order of their incarnations.
    pub params: &'a GivenParams,
    /// The places at which the runs of each list end, by the name of its object.
    pub runs: &'a [Items<usize>],
    /// The blocks of the runs of each list, by the name of its object.
    pub blocks: &'a [Items<Block>],
    /// The runs that hold each object, by its name.
    pub holders: &'a [Items<Stretch>],
    /// The last moments at which calls can begin that come to each object, by its name, counted back.
    pub lasts: &'a [Option<u32>],
    /// The blocks of the runs that hold each object, by its name.
    pub held_blocks: &'a [Items<HeldBlock>],
    ghost cut: { AreRuns histories.now runs.now } by { AreRuns-prop histories.now runs.now },
    ghost blocked: { AreBlocked histories.now runs.now blocks.now } by { AreBlocked-prop histories.now runs.now blocks.now },
    ghost held: { AreHolders histories.now runs.now holders.now },
    ghost held_blocked: { AreHeldBlocked (moment_at lasts.now) holders.now held_blocks.now } by { AreHeldBlocked-prop (moment_at lasts.now) holders.now held_blocks.now },
    ghost ordered: { AreOrdered histories.now } by { AreOrdered-prop histories.now },
    ghost closed: { IsClosed Last histories.now (moment_at lasts.now) } by { IsClosed-prop Last histories.now (moment_at lasts.now) },
}

/// A change with this reason.
fn told_with(bare: &BareChange, reach: Reach) -> Change
    requires { bare.now.moment + 1 < 2 ^ 32 }
    ensures { result ≡ record { line = bare.now.moment + 1; under = bare.now.under.call; object = bare.now.object; reach = reach } }
{
    Change {
        line: bare.moment + 1,
        under: bare.under.call,
        object: bare.object,
        reach,
    }
}

impl<'a> Grounds<'a> {
    /// What lines have told, with the runs of it.
    fn of(telling: &'a Telling, runs: &'a Runs) -> Grounds<'a>
        requires cut { AreRuns telling.now.histories.items runs.now.ends.items }
        requires blocked { AreBlocked telling.now.histories.items runs.now.ends.items runs.now.blocks.items }
        requires held { AreHolders telling.now.histories.items runs.now.ends.items runs.now.holders.items }
        requires held_blocked { AreHeldBlocked (moment_at runs.now.lasts.items) runs.now.holders.items runs.now.held_blocks.items }
        requires ordered { AreOrdered telling.now.histories.items }
        requires closed { IsClosed Last telling.now.histories.items (moment_at runs.now.lasts.items) }
        ensures histories { result.histories.now ≡ telling.now.histories.items }
        ensures families { result.families.now ≡ telling.now.families.calls }
        ensures params { result.params.now ≡ telling.now.params }
        ensures lasts { result.lasts.now ≡ runs.now.lasts.items }
    {
        Grounds {
            histories: telling.histories.as_slice(),
            families: &telling.families.calls,
            params: &telling.params,
            runs: runs.ends.as_slice(),
            blocks: runs.blocks.as_slice(),
            holders: runs.holders.as_slice(),
            lasts: runs.lasts.as_slice(),
            held_blocks: runs.held_blocks.as_slice(),
        }
    }

    /// Why a change could be made.
    fn reason(
        &self,
        alloc: Global,
        keeping: &mut Keeping,
        bare: &BareChange,
    ) -> Result<Reach, NoMemory>
        requires few { bare.now.moment + 1 < 2 ^ 32 }
        requires kept { AreKeptOf self.now.families.now self.now.histories.now self.now.params.now keeping.old.fronts.items }
        requires held { AreHeldBy (moment_at self.now.lasts.now) (from_end bare.now.under.moment) (params_at self.now.families.now self.now.params.now bare.now.under.call) }
        ensures kept { OnOk result (AreKeptOf self.now.families.now self.now.histories.now self.now.params.now keeping.new.fronts.items) }
        ensures reason { IfOk result (λ reach. IsReasoned self.now.families.now self.now.histories.now self.now.params.now bare.now reach) }
    {
        let ground = Ground {
            histories: self.histories,
            families: self.families,
            begun: bare.under,
            runs: self.runs,
            blocks: self.blocks,
            holders: self.holders,
            lasts: self.lasts,
            held_blocks: self.held_blocks,
        };
        if ground.is_made(bare.object) {
            return Ok(Reach::Made);
        }
        let params = self.params.of(self.families, bare.under.call);
        if direct_param(params, bare.object).is_none() {
            if let Some(reach) = keeping.reach(alloc, bare.under, bare.object, bare.moment)? {
                return Ok(reach);
            }
            keeping.seek(alloc, &ground, params)?;
        }
        let search = Search {
            ground,
            params,
            wanted: bare.object,
            before: bare.moment + 1,
        };
        search.least(alloc)
    }

    /// A change with its reason.
    fn explain(
        &self,
        alloc: Global,
        keeping: &mut Keeping,
        bare: &KeptChange,
    ) -> Result<Change, NoMemory>
        requires kept { AreKeptOf self.now.families.now self.now.histories.now self.now.params.now keeping.old.fronts.items }
        requires few { bare.now.moment + 1 < 2 ^ 32 }
        requires held { AreHeldBy (moment_at self.now.lasts.now) (from_end bare.now.under.moment) (params_at self.now.families.now self.now.params.now bare.now.under.call) }
        ensures kept { OnOk result (AreKeptOf self.now.families.now self.now.histories.now self.now.params.now keeping.new.fronts.items) }
        ensures told { IfOk result (λ change. IsTold self.now.families.now self.now.histories.now self.now.params.now bare.now change) }
    {
        let bare = bare.whole();
        let reach = self.reason(alloc, keeping, &bare)?;
        Ok(told_with(&bare, reach))
    }

    /// These changes, each with its reason. NoMemory is want of memory.
    #[tactic(auto, using(crate::proofs::ReasonLemmas::few_at, crate::proofs::ReasonLemmas::all_at, crate::proofs::ReasonLemmas::told_none, crate::proofs::ReasonLemmas::told_all))]
    fn explain_all(&self, alloc: Global, bares: &[KeptChange]) -> Result<Vec<Change>, NoMemory>
        requires few { AreFew bares.now }
        requires held { AllByRecursion (λ bare. AreHeldBy (moment_at self.now.lasts.now) (from_end bare.under.moment) (params_at self.now.families.now self.now.params.now bare.under.call)) bares.now }
        ensures { IfOk result (λ changes. AreTold self.now.families.now self.now.histories.now self.now.params.now bares.now changes.items) }
    {
        let mut keeping = Keeping::none(alloc, self.families.len())?;
        let mut changes = Vec::with_capacity(alloc, bares.len())?;
        for bare in bares {
            changes.push(self.explain(alloc, &mut keeping, bare)?)?;
        }
        Ok(changes)
    }

    /// Writes these changes, each with its reason. NoMemory is want of memory.
    #[tactic(auto, using(crate::proofs::WrittenLemmas::written_none, crate::proofs::WrittenLemmas::written_all, crate::proofs::ReasonLemmas::few_at, crate::proofs::ReasonLemmas::all_at))]
    fn write_all(
        &self,
        alloc: Global,
        out: &mut String,
        bares: &[KeptChange],
    ) -> Result<(), NoMemory>
        requires few { AreFew bares.now }
        requires held { AllByRecursion (λ bare. AreHeldBy (moment_at self.now.lasts.now) (from_end bare.under.moment) (params_at self.now.families.now self.now.params.now bare.under.call)) bares.now }
        ensures { OnOk result (AreWritten self.now.families.now self.now.histories.now self.now.params.now bares.now (string_bytes out.old) (string_bytes out.new)) }
    {
        let mut keeping = Keeping::none(alloc, self.families.len())?;
        for bare in bares {
            let change = self.explain(alloc, &mut keeping, bare)?;
            write_change(out, &change)?;
        }
        Ok(())
    }
}

impl Telling {
    /// Puts what has stood in the lists in order, leaves out what had ended before a way could be there, and finds the runs
    /// of the rest.
    fn order(&mut self, alloc: Global) -> Result<Runs, NoMemory>
        ensures enough { IfOk result (λ runs. IsEnough self.old.families.calls self.old.params self.old.families.changes.items self.old.histories.items self.new.histories.items) }
        ensures families { self.new.families ≡ self.old.families }
        ensures params { self.new.params ≡ self.old.params }
        ensures cut { IfOk result (λ runs. AreRuns self.new.histories.items runs.ends.items) }
        ensures blocked { IfOk result (λ runs. AreBlocked self.new.histories.items runs.ends.items runs.blocks.items) }
        ensures held { IfOk result (λ runs. AreHolders self.new.histories.items runs.ends.items runs.holders.items) }
        ensures held_blocked { IfOk result (λ runs. AreHeldBlocked (moment_at runs.lasts.items) runs.holders.items runs.held_blocks.items) }
        ensures ordered { IfOk result (λ runs. AreOrdered self.new.histories.items) }
        ensures reachable { IfOk result (λ runs. AreReachable Last self.old.families.calls self.old.params self.old.families.changes.items self.new.histories.items (moment_at runs.lasts.items)) }
    {
        let changes = self.families.changes.as_slice();
        let (families, params) = (&self.families.calls, &self.params);
        let before = self.histories.as_slice();
        let firsts = reachable(alloc, Side::First, before, families, params, changes)?;
        rearrange_all(alloc, &mut self.histories, firsts.as_slice());
        let histories = self.histories.as_slice();
        let ends = all_ends(alloc, histories)?;
        let blocks = all_blocks(alloc, histories, ends.as_slice())?;
        let holders = holders(alloc, histories, ends.as_slice())?;
        let lasts = lasts(
            alloc,
            histories,
            families,
            params,
            changes,
            holders.as_slice(),
        )?;
        let held_blocks = held_blocks(alloc, holders.as_slice(), lasts.as_slice())?;
        Ok(Runs {
            ends,
            blocks,
            holders,
            lasts,
            held_blocks,
        })
    }

    /// The changes that were told, each with its reason. What has stood in a list is put in order for it, where there is a
    /// change. NoMemory is want of memory.
    pub(crate) fn explain(&mut self, alloc: Global) -> Result<Vec<Change>, NoMemory>
        requires { AreFew self.old.families.changes.items }
        ensures enough { IfOk result (λ changes. IsEnough self.old.families.calls self.old.params self.old.families.changes.items self.old.histories.items self.new.histories.items) }
        ensures told { IfOk result (λ changes. AreTold self.old.families.calls self.new.histories.items self.old.params self.old.families.changes.items changes.items) }
    {
        if self.families.changes.is_empty() {
            return Ok(Vec::new(alloc));
        }
        let runs = self.order(alloc)?;
        let grounds = Grounds::of(self, &runs);
        grounds.explain_all(alloc, self.families.changes.as_slice())
    }

    /// Why a change could be made, where no way has to be sought: its object was made under the call, or is that of a parameter
    /// with MODIFY.
    fn reason_at_hand(&self, alloc: Global, bare: &BareChange) -> Option<Reach>
        ensures { IfSome result (λ reach. IsReasoned self.now.families.calls self.now.histories.items self.now.params bare.now reach) }
    {
        let families = &self.families.calls;
        if is_made(families, bare.under, self.histories.as_slice(), bare.object) {
            return Some(Reach::Made);
        }
        let params = self.params.of(families, bare.under.call);
        let arg = direct_param(params, bare.object)?;
        let hops = Items::new(alloc);
        Some(Reach::Param { arg, hops })
    }

    /// A change with its reason, where that is at hand.
    fn explain_at_hand(&self, alloc: Global, bare: &KeptChange) -> Option<Change>
        requires { bare.now.moment + 1 < 2 ^ 32 }
        ensures { IfSome result (λ change. IsTold self.now.families.calls self.now.histories.items self.now.params bare.now change) }
    {
        let bare = bare.whole();
        let reach = self.reason_at_hand(alloc, &bare)?;
        Some(told_with(&bare, reach))
    }

    /// The text of the changes, where the reason of each is at hand; None where that of one is not. NoMemory is want of memory.
    #[tactic(auto, using(crate::proofs::WrittenLemmas::written_none, crate::proofs::WrittenLemmas::written_all, crate::proofs::ReasonLemmas::few_at))]
    fn text_at_hand(&self, alloc: Global) -> Result<Option<String>, NoMemory>
        requires { AreFew self.now.families.changes.items }
        ensures { IfOk result (λ text. IfSome text (λ text. AreWritten self.now.families.calls self.now.histories.items self.now.params self.now.families.changes.items [] (string_bytes text))) }
    {
        let mut text = String::new(alloc);
        for bare in self.families.changes.as_slice() {
            match self.explain_at_hand(alloc, bare) {
                Some(change) => write_change(&mut text, &change)?,
                None => return Ok(None),
            }
        }
        Ok(Some(text))
    }

    /// Writes the changes, each with its reason. What has stood in a list is put in order for it. NoMemory is want of memory.
    fn write(&mut self, alloc: Global, out: &mut String) -> Result<(), NoMemory>
        requires { AreFew self.old.families.changes.items }
        ensures enough { OnOk result (IsEnough self.old.families.calls self.old.params self.old.families.changes.items self.old.histories.items self.new.histories.items) }
        ensures count { vec_len self.new.families.changes ≡ length self.old.families.changes.items }
        ensures written { OnOk result (AreWritten self.old.families.calls self.new.histories.items self.old.params self.old.families.changes.items (string_bytes out.old) (string_bytes out.new)) }
    {
        let runs = self.order(alloc)?;
        let grounds = Grounds::of(self, &runs);
        grounds.write_all(alloc, out, self.families.changes.as_slice())
    }

    /// The text of the changes. What has stood in a list is put in order for it, where the reason of one is not at hand. NoMemory
    /// is want of memory.
    pub(crate) fn text(&mut self, alloc: Global) -> Result<String, NoMemory>
        requires { AreFew self.old.families.changes.items }
        ensures enough { OnOk result (IsEnough self.old.families.calls self.old.params self.old.families.changes.items self.old.histories.items self.new.histories.items) }
        ensures count { vec_len self.new.families.changes ≡ length self.old.families.changes.items }
        ensures written { IfOk result (λ text. AreWritten self.old.families.calls self.new.histories.items self.old.params self.old.families.changes.items [] (string_bytes text)) }
    {
        if let Some(text) = self.text_at_hand(alloc)? {
            return Ok(text);
        }
        let mut text = String::new(alloc);
        self.write(alloc, &mut text)?;
        Ok(text)
    }
}
