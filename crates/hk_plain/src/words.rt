//! The calls on words: Get, Put, Add and Length.

ghost use Rattle.std.specs.Prelude.{◌≡◌, ◌<◌, length, slice_set};
ghost use Rattle.hk_model.specs.State.{object, put_object};
ghost use Rattle.hk_model.specs.Refusing.{item_at};
ghost use Rattle.hk_model.specs.Rule.{get_word, put_word, add_word, word_count};
ghost use Rattle.hk_plain.specs.Giving.{Gives};
ghost use Rattle.hk_plain.specs.Additions.{word_added};

use crate::tables::Tables;
use hk_calls::{Stop, Wanted};
use hk_model::limits::WORD_LIMIT;
use hk_model::{Answer, Inc, Name, Path, Refusal, What8};
use hk_rights::Rights;

impl Tables {
    /// The word at an index of an object.
    fn word_at(&self, name: Name, at: u32, step: u8) -> Result<u32, Refusal>
        ensures { result ≡ item_at (object self.now name).words at step }
    {
        match self.object(name) {
            Some(object) => match object.words.as_slice().get(at as usize) {
                Some(word) => Ok(*word),
                None => Err(Refusal::Range { step }),
            },
            None => Err(Refusal::Range { step }),
        }
    }

    /// How many words an object has.
    fn words_of(&self, name: Name) -> u32
        ensures { result ≡ length (object self.now name).words }
    {
        match self.object(name) {
            Some(object) => object.words.len() as u32,
            None => 0,
        }
    }

    /// Writes a word of an object, over another.
    #[tactic(auto, using(crate::proofs::Maps::set_value_absent))]
    pub(crate) fn set_word(&mut self, name: Name, at: u32, word: u32)
        ensures { self.new ≡ put_object self.old name (record (object self.old name) { words = slice_set (object self.old name).words at word }) }
    {
        if let Some(object) = self.objects.get_mut(&name) {
            object.words.set(at as usize, word);
        }
    }

    /// Adds a word after the last of an object, if there is room.
    #[tactic(auto, using(crate::proofs::Maps::set_value_absent, crate::proofs::Maps::set_value_same))]
    fn push_word(&mut self, name: Name, word: u32) -> Result<Answer, Stop>
        ensures { Gives self.old (word_added self.old name word) result self.new }
    {
        if let Some(object) = self.objects.get_mut(&name) {
            if object.words.len() >= WORD_LIMIT {
                let what = What8::Words;
                return Err(Stop::Refused(Refusal::Full { what }));
            }
            object.words.push(word)?;
        }
        Ok(Answer::Done)
    }

    /// Get: replies the word at an index.
    #[tactic(auto, unfolding(hk_model::specs::Rule::get_word))]
    pub(crate) fn get(&self, inc: Inc, path: &Path, at: u32) -> Result<Answer, Stop>
        ensures { Gives self.now (get_word self.now inc path.now at) result self.now }
    {
        let cap = self.target(inc, path, Wanted::General, Rights::GETDATA)?;
        let word = self.word_at(cap.name, at, path.len() as u8)?;
        Ok(Answer::Word(word))
    }

    /// Put: writes the word at an index.
    #[tactic(auto, unfolding(hk_model::specs::Rule::put_word))]
    pub(crate) fn put(&mut self, inc: Inc, path: &Path, at: u32, word: u32) -> Result<Answer, Stop>
        ensures { Gives self.old (put_word self.old inc path.now at word) result self.new }
    {
        let cap = self.target(inc, path, Wanted::General, Rights::PUTDATA_MODIFY)?;
        let _old = self.word_at(cap.name, at, path.len() as u8)?;
        self.set_word(cap.name, at, word);
        Ok(Answer::Done)
    }

    /// Add: a word goes after the last.
    #[tactic(auto, unfolding(hk_model::specs::Rule::add_word))]
    pub(crate) fn add(&mut self, inc: Inc, path: &Path, word: u32) -> Result<Answer, Stop>
        ensures { Gives self.old (add_word self.old inc path.now word) result self.new }
    {
        let cap = self.target(inc, path, Wanted::General, Rights::ADDDATA_MODIFY)?;
        self.push_word(cap.name, word)
    }

    /// Length: replies the number of words.
    #[tactic(auto, unfolding(hk_model::specs::Rule::word_count))]
    pub(crate) fn length(&self, inc: Inc, path: &Path) -> Result<Answer, Stop>
        ensures { Gives self.now (word_count self.now inc path.now) result self.now }
    {
        let cap = self.target(inc, path, Wanted::General, Rights::GETDATA)?;
        Ok(Answer::Word(self.words_of(cap.name)))
    }
}
