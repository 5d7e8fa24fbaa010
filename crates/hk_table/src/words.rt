//! The calls on words, Get, Put, Add and Length, and Look.

ghost use Rattle.std.specs.Prelude.{◌≡◌, ◌<◌, length};
ghost use Rattle.hk_model.specs.State.{process};
ghost use Rattle.hk_model.specs.Rule.{get_word, put_word, add_word, word_count, look};
ghost use Rattle.hk_table.specs.Giving.{Answers, Gives};
ghost use Rattle.hk_table.specs.Additions.{word_added};

use crate::parts::Parts;
use hk_calls::{Stop, Wanted, looked};
use hk_model::limits::WORD_LIMIT;
use hk_model::{Answer, Name, Path, Proc, Refusal, Template, What8};
use hk_rights::Rights;
use std::marker::PhantomData;

impl Parts {
    /// Get: replies the word at an index.
    #[tactic(auto, unfolding(hk_model::specs::Rule::get_word))]
    pub(crate) fn get(&mut self, proc: Proc, path: &Path, at: u32) -> Result<Answer, Refusal>
        requires { proc.0 < length self.old.processes }
        ensures { Answers self.old (get_word self.old (process self.old proc).current path.now at) result self.new }
    {
        let cap = self.target(proc, path, Wanted::General, Rights::GETDATA)?;
        let word = self.word_at(cap.name, at, path.len() as u8)?;
        Ok(Answer::Word(word))
    }

    /// Put: writes the word at an index.
    #[tactic(auto, unfolding(hk_model::specs::Rule::put_word))]
    pub(crate) fn put(
        &mut self,
        proc: Proc,
        path: &Path,
        at: u32,
        word: u32,
    ) -> Result<Answer, Refusal>
        requires { proc.0 < length self.old.processes }
        ensures { Answers self.old (put_word self.old (process self.old proc).current path.now at word) result self.new }
    {
        let cap = self.target(proc, path, Wanted::General, Rights::PUTDATA_MODIFY)?;
        let _old = self.word_at(cap.name, at, path.len() as u8)?;
        self.set_word(cap.name, at, word);
        Ok(Answer::Done)
    }

    /// A word goes after the last of an object, if there is room.
    fn add_word(&mut self, name: Name, word: u32) -> Result<Answer, Stop>
        ensures { Gives self.old (word_added self.old name word) result self.new }
    {
        if self.words(name).len() >= WORD_LIMIT {
            let what = What8::Words;
            return Err(Stop::Refused(Refusal::Full { what }));
        }
        self.push_word(name, word)?;
        Ok(Answer::Done)
    }

    /// Add: a word goes after the last.
    #[tactic(auto, unfolding(hk_model::specs::Rule::add_word))]
    pub(crate) fn add(&mut self, proc: Proc, path: &Path, word: u32) -> Result<Answer, Stop>
        requires { proc.0 < length self.old.processes }
        ensures { Gives self.old (add_word self.old (process self.old proc).current path.now word) result self.new }
    {
        let cap = self.target(proc, path, Wanted::General, Rights::ADDDATA_MODIFY)?;
        self.add_word(cap.name, word)
    }

    /// Length: replies the number of words.
    #[tactic(auto, unfolding(hk_model::specs::Rule::word_count))]
    pub(crate) fn length(&mut self, proc: Proc, path: &Path) -> Result<Answer, Refusal>
        requires { proc.0 < length self.old.processes }
        ensures { Answers self.old (word_count self.old (process self.old proc).current path.now) result self.new }
    {
        let cap = self.target(proc, path, Wanted::General, Rights::GETDATA)?;
        Ok(Answer::Word(self.words(cap.name).len() as u32))
    }

    /// Look: replies what the path leads to.
    #[tactic(auto, unfolding(hk_model::specs::Rule::look))]
    pub(crate) fn look(&mut self, proc: Proc, path: &Path) -> Result<Answer, Refusal>
        requires { proc.0 < length self.old.processes }
        ensures { Answers self.old (look self.old (process self.old proc).current path.now) result self.new }
    {
        let _ = PhantomData::<Template>; // so that the check knows what an Entry holds
        let found = self.walk(proc, path)?;
        Ok(Answer::Word(looked(found)))
    }
}
