//! The script of a record (`docs/FORMATS.md`, "Audit lines and records").

ghost use Rattle.std.specs.Prelude.{◌≡◌, ◌<◌, ◌≤◌, ◌-◌, ◌^◌, ◌++◌, length, take, drop};
ghost use Rattle.hk_format.specs.Audits.{cut, cut_at_record, is_record};
ghost use Rattle.hk_format.specs.Texts.{lines_of};
ghost use Rattle.hk_audit.specs.RecordCuts.{texts_of, behind_first};

use hk_text::first_of;

/// The number of bytes before the line `record`, or of all bytes where no line is that.
pub(crate) fn script_length(bytes: &[u8]) -> usize
    ensures cut { cut_at_record (texts_of bytes.now) ≡ cut (lines_of (take result bytes.now)) (behind_first (drop result bytes.now)) }
    ensures lines { lines_of bytes.now ≡ lines_of (take result bytes.now) ++ lines_of (drop result bytes.now) }
    ensures within { result ≤ length bytes.now }
{
    let mut start = 0;
    while start < bytes.len() {
        let len = first_of(&bytes[start..], b'\n');
        if is_record(&bytes[start..start + len]) {
            return start;
        }
        start += len + 1;
    }
    bytes.len()
}

/// Whether the line is exactly `record`.
fn is_record(line: &[u8]) -> bool
    ensures { result ≡ is_record line.now }
{
    line == b"record".as_slice()
}

/// The number of lines.
pub(crate) fn line_count(bytes: &[u8]) -> u32
    requires { length (lines_of bytes.now) < 2 ^ 32 - 1 }
    ensures { result ≡ length (lines_of bytes.now) }
{
    let mut count = 0;
    let mut start = 0;
    while start < bytes.len() {
        start += first_of(&bytes[start..], b'\n') + 1;
        count += 1;
    }
    count
}
