//! The words that lines begin with (`docs/FORMATS.md`, "Grammar").

ghost use Rattle.std.specs.Prelude.{◌≡◌, ◌==◌};
ghost use Rattle.std.specs.List.{find, filter};
ghost use Rattle.hk_model.specs.Labels.{same_text, first};
ghost use Rattle.hk_format.specs.Verbs.{verb_word, all_verbs};

use hk_format::Verb;

/// The verb that these letters are the word of, in scripts and in audit lines. None exactly where there
/// is none (`docs/FORMATS.md`, "Grammar").
pub fn verb_of(word: &[u8]) -> Option<Verb>
    ensures { result ≡ find (λ v. same_text word.now (verb_word v)) all_verbs }
{
    if word.is_empty() {
        return None;
    }
    verb_in(verbs_with(word[0]), word)
}

/// The verbs whose words begin with this letter.
#[tactic(auto, unfolding(hk_format::specs::Verbs::all_verbs))]
fn verbs_with(letter: u8) -> &'static [Verb]
    ensures { result.now ≡ filter (λ v. first (verb_word v) == letter) all_verbs }
{
    match letter {
        b'a' => &[Verb::Amplify, Verb::AddData, Verb::Append, Verb::Add],
        b'c' => &[Verb::Code, Verb::Cap, Verb::Create, Verb::Copy, Verb::Call],
        b'd' => &[Verb::Drop],
        b'e' => &[Verb::End, Verb::Empty, Verb::Erase],
        b'g' => &[Verb::GetData, Verb::Goto],
        b'h' => &[Verb::Hydra],
        b'i' => &[Verb::IfEq, Verb::IfLess, Verb::IfDenied],
        b'l' => &[
            Verb::Limit,
            Verb::Label,
            Verb::Length,
            Verb::Load,
            Verb::Look,
        ],
        b'm' => &[Verb::Merge],
        b'o' => &[Verb::Object],
        b'p' => &[
            Verb::Procedure,
            Verb::Process,
            Verb::Param,
            Verb::PutData,
            Verb::P,
        ],
        b'r' => &[Verb::Restrict, Verb::Return],
        b's' => &[Verb::Semaphore, Verb::Store, Verb::Set],
        b't' => &[Verb::Type, Verb::Template],
        b'v' => &[Verb::V],
        b'w' => &[Verb::Words],
        b'y' => &[Verb::Yield],
        _ => &[],
    }
}

/// The first of the verbs whose word it is.
fn verb_in(verbs: &[Verb], word: &[u8]) -> Option<Verb>
    ensures { result ≡ find (λ v. same_text word.now (verb_word v)) verbs.now }
{
    for verb in verbs {
        if word == word_of(*verb) {
            return Some(*verb);
        }
    }
    None
}

/// The word of a verb.
fn word_of(verb: Verb) -> &'static [u8]
    ensures { result.now ≡ verb_word verb }
{
    match verb {
        Verb::Hydra => b"hydra",
        Verb::Limit => b"limit",
        Verb::Type => b"type",
        Verb::Object => b"object",
        Verb::Semaphore => b"semaphore",
        Verb::Procedure => b"procedure",
        Verb::Code => b"code",
        Verb::Process => b"process",
        Verb::End => b"end",
        Verb::Words => b"words",
        Verb::Empty => b"empty",
        Verb::Cap => b"cap",
        Verb::Amplify => b"amplify",
        Verb::Create => b"create",
        Verb::Param => b"param",
        Verb::Label => b"label",
        Verb::GetData => b"getdata",
        Verb::PutData => b"putdata",
        Verb::AddData => b"adddata",
        Verb::Length => b"length",
        Verb::Load => b"load",
        Verb::Store => b"store",
        Verb::Append => b"append",
        Verb::Erase => b"erase",
        Verb::Drop => b"drop",
        Verb::Restrict => b"restrict",
        Verb::Look => b"look",
        Verb::Template => b"template",
        Verb::Merge => b"merge",
        Verb::Copy => b"copy",
        Verb::Call => b"call",
        Verb::Return => b"return",
        Verb::P => b"p",
        Verb::V => b"v",
        Verb::Yield => b"yield",
        Verb::Set => b"set",
        Verb::Add => b"add",
        Verb::Goto => b"goto",
        Verb::IfEq => b"ifeq",
        Verb::IfLess => b"iflt",
        Verb::IfDenied => b"ifdenied",
    }
}
