//! What bytes are, and where the first of a kind stands.

ghost use Rattle.std.specs.Prelude.{◌≡◌, ◌≤◌, ◌==◌, length, not, take};
ghost use Rattle.std.specs.List.{list_any, list_all, position_or_len};
ghost use Rattle.hk_model.specs.Labels.{is_digit, is_lower, is_capital, is_word_byte, is_register};
ghost use Rattle.hk_format.specs.Texts.{is_blank, is_no_text};
ghost use Rattle.hk_text.specs.Views.{is_mark, is_end};

/// Whether the byte is one of `0` to `9`.
pub fn is_digit(byte: u8) -> bool
    ensures { result ≡ is_digit byte }
{
    b'0' <= byte && byte <= b'9'
}

/// Whether the byte is one of `a` to `z`.
pub fn is_lower(byte: u8) -> bool
    ensures { result ≡ is_lower byte }
{
    b'a' <= byte && byte <= b'z'
}

/// Whether the byte is one of `A` to `Z`.
pub fn is_capital(byte: u8) -> bool
    ensures { result ≡ is_capital byte }
{
    b'A' <= byte && byte <= b'Z'
}

/// Whether all bytes are digits.
pub fn are_digits(text: &[u8]) -> bool
    ensures { result ≡ list_all is_digit text.now }
{
    text.iter().all(|byte| is_digit(*byte))
}

/// Whether the byte may stand in a word.
fn is_word_byte(byte: u8) -> bool
    ensures { result ≡ is_word_byte byte }
{
    is_lower(byte) || is_digit(byte) || byte == b'_'
}

/// The place of the first byte that may not stand in a word, or the length.
fn word_len(text: &[u8]) -> usize
    ensures place { result ≡ position_or_len (λ b. not (is_word_byte b)) text.now }
    ensures within { result ≤ length text.now }
{
    match text.iter().position(|byte| !is_word_byte(*byte)) {
        Some(at) => at,
        None => text.len(),
    }
}

/// Whether the text is `r0` to `r7`, the name of a register (`docs/FORMATS.md`, "Names").
pub fn is_register(text: &[u8]) -> bool
    ensures { result ≡ is_register text.now }
{
    text.len() == 2 && text[0] == b'r' && b'0' <= text[1] && text[1] <= b'7'
}

/// Whether the byte may not stand in a line.
fn is_no_text(byte: u8) -> bool
    ensures { result ≡ is_no_text byte }
{
    if 32 <= byte && byte <= 126 {
        return false;
    }
    byte != b'\t' && byte != b'\r'
}

/// Whether some byte is a point.
pub fn has_point(text: &[u8]) -> bool
    ensures { result ≡ list_any (λ b. b == 46) text.now }
{
    text.iter().any(|byte| *byte == b'.')
}

/// Whether the byte separates pieces.
pub fn is_blank(byte: u8) -> bool
    ensures { result ≡ is_blank byte }
{
    byte <= b' ' && (byte == b' ' || byte == b'\t' || byte == b'\r')
}

/// Whether a token ends at the byte: it separates pieces, or the text of the line ends at it.
fn is_end(byte: u8) -> bool
    ensures { result ≡ is_end byte }
{
    is_blank(byte) || is_mark(byte)
}

/// The place of the first byte at which a token ends, or the length.
fn first_end(text: &[u8]) -> usize
    ensures place { result ≡ position_or_len is_end text.now }
    ensures within { result ≤ length text.now }
{
    match text.iter().position(|byte| is_end(*byte)) {
        Some(at) => at,
        None => text.len(),
    }
}

/// The text that stands before the first byte at which a token ends.
#[derive(Clone, Copy)]
pub struct Token {
    pub len: usize,
    /// Whether all its bytes may stand in a word.
    pub in_word: bool,
}

/// The text before the first byte at which a token ends, or all.
pub fn first_token(text: &[u8]) -> Token
    ensures place { result.len ≡ position_or_len is_end text.now }
    ensures within { result.len ≤ length text.now }
    ensures word { result.in_word ≡ list_all is_word_byte (take result.len text.now) }
{
    let len = word_len(text);
    if len == text.len() {
        return Token { len, in_word: true };
    }
    if is_end(text[len]) {
        return Token { len, in_word: true };
    }
    Token {
        len: len + first_end(&text[len..]),
        in_word: false,
    }
}

/// The place of the first such byte, or the length.
pub fn first_of(text: &[u8], byte: u8) -> usize
    ensures place { result ≡ position_or_len (λ b. b == byte) text.now }
    ensures within { result ≤ length text.now }
{
    match text.iter().position(|b| *b == byte) {
        Some(at) => at,
        None => text.len(),
    }
}

/// Whether the text of a line ends at the byte: it may not stand in a line, or it begins a comment.
fn is_mark(byte: u8) -> bool
    ensures { result ≡ is_mark byte }
{
    if b'#' < byte && byte <= 126 {
        return false;
    }
    is_no_text(byte) || byte == b'#'
}

/// The place of the first byte at which the text of a line ends, or the length.
pub fn first_mark(text: &[u8]) -> usize
    ensures place { result ≡ position_or_len is_mark text.now }
    ensures within { result ≤ length text.now }
{
    match text.iter().position(|byte| is_mark(*byte)) {
        Some(at) => at,
        None => text.len(),
    }
}

/// The place of the first byte that may not stand in a line, as a line feed, or the length.
pub fn first_no_text(text: &[u8]) -> usize
    ensures place { result ≡ position_or_len is_no_text text.now }
    ensures within { result ≤ length text.now }
{
    match text.iter().position(|byte| is_no_text(*byte)) {
        Some(at) => at,
        None => text.len(),
    }
}
