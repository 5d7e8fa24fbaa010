//! The run of a generated world, summed up (`docs/FORMATS.md`, "Summaries").

ghost use Rattle.std.specs.Prelude.{◌≡◌, IfOk, codes, length};
ghost use Rattle.hk_format.specs.Records.{end_text};
ghost use Rattle.hk_top.specs.Words.{MayGenerate};
ghost use Rattle.hk_top.specs.Served.{IsSummary};
ghost use Rattle.hk_top.specs.Summaries.{summed_text};

use crate::counted::{CountedRun, run_counted};
use crate::maker::Maker;
use crate::served::{DueText, Served};
use crate::status;
use hk_gen::{confined_calls_law, generate, whole_runs_end_law};
use hk_model::{End, Kernel, NoMemory, Text};
use std::alloc::Global;

/// What is due to `gen` and a number of processes, 1 to 256: the generated world is run on processor 0 until every
/// process has ended, and the text is the summary of the run. NoMemory is want of memory.
#[tactic(auto, using(crate::proofs::CountedRuns::summed))]
pub(crate) fn run_generated<M: Maker>(
    alloc: Global,
    count: u32,
    kernels: &M,
) -> Result<Served<M::Made>, NoMemory>
    requires { MayGenerate count }
    ensures { IfOk result (λ served. IsSummary M.Made.state count served) }
{
    let world = generate(alloc, count)?;
    let kernel = kernels.make(alloc, &world)?;
    confined_calls_law(count);
    whole_runs_end_law(count);
    let run = run_counted(alloc, &world, kernel)?;
    Ok(Served {
        due: DueText {
            status: status::of_run(run.end),
            text: summary_text(alloc, count, &run)?,
        },
        kernel: Some(run.kernel),
    })
}

/// The summary of a run of a world that was generated for so many processes.
fn summary_text<K: Kernel>(alloc: Global, count: u32, run: &CountedRun<K>) -> Result<Text, NoMemory>
    ensures { IfOk result (λ text. text ≡ summed_text count (length (K.state run.now.kernel).objects) (K.state run.now.kernel).events run.now.changes run.now.end) }
{
    let shown = run.kernel.snapshot(alloc)?;
    let objects = shown.objects.len();
    let lines = shown.events;
    let changes = run.changes;
    let end = end_text(run.end);
    let text = format!(in alloc;
        "gen {count}\nobjects {objects}\nlines {lines}\nchanges {changes}\n{end}\n"
    )?;
    Ok(Text::from_string(text)?)
}

/// The last line of a record, without its line feed.
fn end_text(end: End) -> &'static str
    ensures { result.now ≡ end_text end }
{
    match end {
        End::Done => "end done",
        End::Stuck => "end stuck",
        End::Limit => "end limit",
    }
}
