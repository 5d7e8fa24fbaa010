//! Laws of what is printed (`docs/FORMATS.md`, "Statuses and outputs").

ghost use Rattle.std.specs.Prelude.{◌≡◌, ◌≤◌, ℕ, List, Option, Some, length};
ghost use Rattle.hk_model.specs.Limits.{record_bytes};
ghost use Rattle.hk_model.specs.State.{State};
ghost use Rattle.hk_model.specs.Legal.{IsLegal};
ghost use Rattle.hk_format.specs.Records.{record_text};
ghost use Rattle.hk_format.specs.CauseTexts.{verdict_text};
ghost use Rattle.hk_model.specs.declared.verdicts.Verdict.TheVariants.{Legal};
ghost use Rattle.hk_top.specs.declared.words.Command.TheVariants as command;
ghost use Rattle.hk_top.specs.Words.{words_of};
ghost use Rattle.hk_top.specs.Runs.{IsRunBy, IsWholeRun};
ghost use Rattle.hk_top.specs.Outputs.{Due, DueTo, IsPrinted};

use hk_model::{End, Line, World};

/// The record of a legal history is found legal: nothing else is due to `check` and its bytes than
/// status 0 and `legal`. The function does nothing; its contract is the law.
#[tactic(auto, using(crate::proofs::FoundLegal::found_legal))]
pub fn printed_record_is_legal(world: &World, lines: &[Line], end: End)
    requires { IsLegal world.now lines.now end }
    ensures { (status : ℕ) (text : List ℕ) (made : Option State) → DueTo (words_of command.Check) (record_text world.now lines.now end) status text made
        → (status ≡ 0) × (text ≡ verdict_text Legal) }
{
    let _limit = world.limit();
    let _count = lines.len();
}

/// A record that `run` or `run N` prints for a script fits what `check` reads (`docs/RULES.md`, "Limits").
/// So where a source tells the record's bytes and no others, nothing else is due to `check` than
/// status 0 and `legal`, and never `line 0: TooLong`. The function does nothing; its contract is the
/// law.
pub fn printed_record_is_read_whole(source: &[u8], world: &World, text: &[u8])
    requires { IsPrinted source.now world.now text.now }
    ensures fits { length text.now ≤ record_bytes }
    ensures legal { (after : Option (List ℕ)) (status : ℕ) (told : List ℕ) (made : Option State) → Due (words_of command.Check) (Some text.now) after status told made
        → (status ≡ 0) × (told ≡ verdict_text Legal) }
{
    let _bytes = source.len();
    let _limit = world.limit();
    let _text = text.len();
}

/// What `run` prints is a function of its script: two whole runs of a world on processor 0 have the
/// same lines and the same end word. The function does nothing; its contract is the law.
#[tactic(auto, using(crate::proofs::OneRun::one_run))]
pub fn whole_run_is_one(
    world: &World,
    lines: &[Line],
    end: End,
    other_lines: &[Line],
    other_end: End,
)
    requires first { IsWholeRun world.now lines.now end }
    requires second { IsWholeRun world.now other_lines.now other_end }
    ensures lines { lines.now ≡ other_lines.now }
    ensures end { end ≡ other_end }
{
    let _limit = world.limit();
    let _counts = (lines.len(), other_lines.len());
}

/// What `run 1` prints is what `run` prints: a run by one processor is the whole run on processor 0.
/// The function does nothing; its contract is the law.
#[tactic(auto, using(crate::proofs::OneRun::runs_alone))]
pub fn one_processor_runs_alone(world: &World, lines: &[Line], end: End)
    requires { IsRunBy world.now 1 lines.now end }
    ensures { IsWholeRun world.now lines.now end }
{
    let _limit = world.limit();
    let _count = lines.len();
}
