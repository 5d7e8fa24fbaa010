//! The bounds of the processes of a world as text (`docs/FORMATS.md`, "Statuses and outputs").

ghost use Rattle.std.specs.Prelude.{◌≡◌, ◌≤◌, ◌+◌, ◌++◌, length, map, IfOk, OnOk, string_bytes};
ghost use Rattle.hk_top.specs.BoundTexts.{bounds_text, bounds_from, pairs_text, pair_text, pair_count};

use hk_model::{Name, NoMemory, Text};
use std::alloc::Global;

/// A line `PROC OBJECT` for each object of each process's bound, and then `bound N` with the number
/// of these lines. NoMemory is want of memory.
pub(crate) fn bounds_text(alloc: Global, bounds: &[Vec<Name>]) -> Result<Text, NoMemory>
    ensures { IfOk result (λ text. text ≡ bounds_text (map (λ names. names.items) bounds.now)) }
{
    let mut out = String::new(alloc);
    let count = write_bounds(&mut out, bounds)?;
    write!(&mut out, "bound {count}\n")?;
    Ok(Text::from_string(out)?)
}

/// Writes the lines of all processes, and gives how many there are.
fn write_bounds(out: &mut String, bounds: &[Vec<Name>]) -> Result<usize, NoMemory>
    ensures text { OnOk result (string_bytes out.new ≡ string_bytes out.old ++ bounds_from 0 (map (λ names. names.items) bounds.now)) }
    ensures count { IfOk result (λ count. count ≡ pair_count (map (λ names. names.items) bounds.now)) }
{
    let mut count = 0;
    for (process, names) in bounds.iter().enumerate() {
        let names = names.as_slice();
        write_pairs(out, process, names)?;
        let _written = out.len();
        count += names.len();
    }
    Ok(count)
}

/// Writes a line for each object of a process's bound.
fn write_pairs(out: &mut String, process: usize, names: &[Name]) -> Result<(), NoMemory>
    ensures text { OnOk result (string_bytes out.new ≡ string_bytes out.old ++ pairs_text process names.now) }
    ensures more { OnOk result (length (string_bytes out.old) + length names.now ≤ length (string_bytes out.new)) }
{
    for name in names {
        write_pair(out, process, *name)?;
    }
    Ok(())
}

/// Writes the line of an object of a process's bound.
fn write_pair(out: &mut String, process: usize, name: Name) -> Result<(), NoMemory>
    ensures text { OnOk result (string_bytes out.new ≡ string_bytes out.old ++ pair_text process name) }
    ensures more { OnOk result (length (string_bytes out.old) + 1 ≤ length (string_bytes out.new)) }
{
    let number = name.0;
    write!(out, "{process} {number}\n")?;
    Ok(())
}
