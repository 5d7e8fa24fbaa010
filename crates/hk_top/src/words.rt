//! The words that the program is called with (`docs/FORMATS.md`, "Statuses and outputs").

ghost use Rattle.std.specs.Prelude.{◌≡◌, [], ◌∷◌, IfSome, IfNone, map, string_bytes};
ghost use Rattle.std.specs.Fmt.{decimal};
ghost use Rattle.hk_model.specs.Limits.{cpu_limit, process_limit};
ghost use Rattle.hk_top.specs.Words.{Calls, byte_limit, IsBetween, IsNoNumber, MayRun, MayTakeBack, MayTrace, MayGenerate, back_limit, trace_limit};

use hk_model::limits::{CPU_LIMIT, PROCESS_LIMIT, RECORD_BYTES, SCRIPT_BYTES};
use hk_text::numeral;

/// The largest number of a line that can be traced (`docs/FORMATS.md`, "Statuses and outputs").
pub const TRACE_LIMIT: u32 = 999;

/// The largest number of lines that can be taken back (`docs/FORMATS.md`, "Statuses and outputs").
pub const BACK_LIMIT: u32 = 999;

/// The most bytes that the JSON of a world may have (`docs/RULES.md`, "Limits").
pub const JSON_BYTES: usize = 16_777_216;

/// What the program can do.
#[derive(Clone, Copy)]
pub enum Command {
    /// Runs a script on processor 0, and writes its record.
    Run,
    /// Runs a script on so many processors, 1 to 16, and writes its record.
    RunOn(u8),
    /// Writes the canonical script of the world that a script declares.
    Show,
    /// Writes the static bound of each process of the world that a script declares.
    Bound,
    /// Writes the world that a script declares as JSON.
    Json,
    /// Writes the canonical script of a world that is read as JSON.
    Unjson,
    /// Writes the verdict on a record.
    Check,
    /// Writes the changes of a record's lines under confined calls, each with its reason.
    Confine,
    /// Writes where the capabilities and templates came from that a line of a record used: the line of
    /// this number, 1 to 999.
    Trace(u32),
    /// Writes the state before the last lines of a record: so many of them, 1 to 999.
    Back(u32),
    /// Runs the generated world of so many processes, 1 to 256, on processor 0, and writes a summary.
    Gen(u32),
}

/// The most bytes that a command may read; none where it reads nothing.
pub(crate) fn byte_limit(command: Command) -> usize
    ensures { result ≡ byte_limit command }
{
    match command {
        Command::Run | Command::RunOn(_) | Command::Show | Command::Bound | Command::Json =>
            SCRIPT_BYTES,
        Command::Check | Command::Confine | Command::Trace(_) | Command::Back(_) => RECORD_BYTES,
        Command::Unjson => JSON_BYTES,
        Command::Gen(_) => 0,
    }
}

/// The command of these words. None exactly where they are no command.
pub(crate) fn read_command(words: &[String]) -> Option<Command>
    ensures { Calls result (map string_bytes words.now) }
{
    match words {
        [word] => command_of_word(word.as_str()),
        [word, number] => command_of_words(word.as_str(), number.as_str()),
        _ => None,
    }
}

/// The command of this one word.
fn command_of_word(word: &str) -> Option<Command>
    ensures { Calls result (word.now ∷ []) }
{
    match word {
        "run" => Some(Command::Run),
        "show" => Some(Command::Show),
        "bound" => Some(Command::Bound),
        "json" => Some(Command::Json),
        "unjson" => Some(Command::Unjson),
        "check" => Some(Command::Check),
        "confine" => Some(Command::Confine),
        _ => None,
    }
}

/// The command of this word and this number.
fn command_of_words(word: &str, number: &str) -> Option<Command>
    ensures { Calls result (word.now ∷ number.now ∷ []) }
{
    match word {
        "run" => Some(Command::RunOn(processors(number)?)),
        "trace" => Some(Command::Trace(line_number(number)?)),
        "back" => Some(Command::Back(lines_back(number)?)),
        "gen" => Some(Command::Gen(processes(number)?)),
        _ => None,
    }
}

/// The number of processors, 1 to 16, that the word spells.
fn processors(word: &str) -> Option<u8>
    ensures some { IfSome result (λ cpus. (word.now ≡ decimal cpus) × MayRun cpus) }
    ensures none { IfNone result (IsNoNumber cpu_limit word.now) }
{
    let cpus = number_to(u32::from(CPU_LIMIT), word)?;
    Some(cpus as u8)
}

/// The number of a line, 1 to 999, that the word spells.
fn line_number(word: &str) -> Option<u32>
    ensures some { IfSome result (λ line. (word.now ≡ decimal line) × MayTrace line) }
    ensures none { IfNone result (IsNoNumber trace_limit word.now) }
{
    number_to(TRACE_LIMIT, word)
}

/// The number of lines, 1 to 999, that the word spells.
fn lines_back(word: &str) -> Option<u32>
    ensures some { IfSome result (λ count. (word.now ≡ decimal count) × MayTakeBack count) }
    ensures none { IfNone result (IsNoNumber back_limit word.now) }
{
    number_to(BACK_LIMIT, word)
}

/// The number of processes, 1 to 256, that the word spells.
fn processes(word: &str) -> Option<u32>
    ensures some { IfSome result (λ count. (word.now ≡ decimal count) × MayGenerate count) }
    ensures none { IfNone result (IsNoNumber process_limit word.now) }
{
    number_to(PROCESS_LIMIT as u32, word)
}

/// The number from 1 to the largest one that the word spells in digits without a leading zero.
fn number_to(largest: u32, word: &str) -> Option<u32>
    ensures some { IfSome result (λ number. (word.now ≡ decimal number) × IsBetween largest number) }
    ensures none { IfNone result (IsNoNumber largest word.now) }
{
    let number = numeral(word.as_bytes())?;
    let most = u64::from(largest);
    if number < 1 || number > most {
        return None;
    }
    Some(number as u32)
}
