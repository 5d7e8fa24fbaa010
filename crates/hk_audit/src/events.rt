//! What an audit line tells before its arrow (`docs/FORMATS.md`, "Audit lines and records").

ghost use Rattle.std.specs.Prelude.{◌≡◌, Ok, Err, IfOk, IfErr};
ghost use Rattle.hk_format.specs.Reading.{end, taken};
ghost use Rattle.hk_format.specs.LineReading.{call_named, event_line, what_of};
ghost use Rattle.hk_audit.specs.Left.{rest};
ghost use Rattle.hk_audit.specs.Events.{line_of};

use crate::parts::Parts;
use hk_format::ParseCause;
use hk_model::{Cpu, Inc, Line, Proc, Reply, What};
use hk_script::verb_of;

/// Which processor, process and incarnation an event is of, and what happened.
#[derive(Clone, Copy, PartialEq, Eq)]
pub struct Event {
    cpu: Cpu,
    proc: Proc,
    inc: Inc,
    what: What,
}

impl Event {
    /// The line of this event and its reply.
    pub fn with_reply(self, reply: Reply) -> Line
        ensures { result ≡ line_of self reply }
    {
        Line {
            cpu: self.cpu,
            proc: self.proc,
            inc: self.inc,
            what: self.what,
            reply,
        }
    }
}

impl<'a> Parts<'a> {
    /// What stands before the arrow.
    pub fn event(&mut self) -> Result<Event, ParseCause>
        ensures ok { IfOk result (λ event. event_line (rest self.old) ≡ Ok (line_of event, rest self.new)) }
        ensures refused { IfErr result (λ cause. event_line (rest self.old) ≡ Err cause) }
    {
        let cpu = Cpu(self.number_below(16)? as u8);
        let proc = Proc(self.number_below(256)? as u16);
        let inc = Inc(self.inc()?);
        let word = self.word()?;
        let what = self.what(word)?;
        self.end()?;
        Ok(Event {
            cpu,
            proc,
            inc,
            what,
        })
    }

    /// What happened, by its first word.
    fn what(&mut self, word: &[u8]) -> Result<What, ParseCause>
        ensures { what_of word.now (rest self.old) ≡ taken result (rest self.new) }
    {
        if word == b"dispatch".as_slice() {
            return self.what_ends(What::Dispatch);
        }
        if word == b"halt".as_slice() {
            return self.what_ends(What::Halt);
        }
        self.call_named(word)
    }

    /// What happened, at the end of what is read.
    fn what_ends(&mut self, what: What) -> Result<What, ParseCause>
        ensures { end what (rest self.old) ≡ taken result (rest self.new) }
    {
        self.end()?;
        Ok(what)
    }

    /// The call that begins with this word.
    fn call_named(&mut self, word: &[u8]) -> Result<What, ParseCause>
        ensures { call_named word.now (rest self.old) ≡ taken result (rest self.new) }
    {
        match verb_of(word) {
            Some(verb) => Ok(What::Call(self.call(verb)?)),
            None => Err(ParseCause::UnknownWord),
        }
    }
}
