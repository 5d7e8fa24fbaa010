//! Sets of numbers: of columns, and of processes.

use hk_model::NoMemory;
use std::alloc::Global;

/// A set of numbers, with room for the greatest that was added.
#[derive(Drop)]
pub(crate) struct Marks {
    /// A bit for each number, sixty-four numbers a word.
    words: Vec<u64>,
}

/// Adds the numbers that one word of a set stands for, if they are set.
fn list_word(at: usize, word: u64, numbers: &mut Vec<usize>) -> Result<(), NoMemory> {
    if word == 0 {
        return Ok(());
    }
    for bit in 0..64usize {
        if word & (1u64 << bit) != 0 {
            numbers.push(at.wrapping_mul(64).wrapping_add(bit))?;
        }
    }
    Ok(())
}

impl Marks {
    /// No numbers.
    pub(crate) fn new(alloc: Global) -> Marks {
        Marks {
            words: Vec::new(alloc),
        }
    }

    /// One word of the set.
    fn word(&self, at: usize) -> u64 {
        match self.words.get(at) {
            None => 0,
            Some(word) => *word,
        }
    }

    /// Makes room for a number.
    fn make_room(&mut self, number: usize) -> Result<(), NoMemory> {
        for _ in self.words.len()..number / 64 + 1 {
            self.words.push(0)?;
        }
        Ok(())
    }

    /// Adds a number. Whether it was not there.
    pub(crate) fn add(&mut self, number: usize) -> Result<bool, NoMemory> {
        self.make_room(number)?;
        let bit = 1u64 << (number % 64);
        match self.words.get_mut(number / 64) {
            None => Ok(false),
            Some(word) => {
                let first = *word & bit == 0;
                *word |= bit;
                Ok(first)
            }
        }
    }

    /// Adds to a list the numbers that are not in another set, in their order.
    pub(crate) fn list_beyond(
        &self,
        other: &Marks,
        numbers: &mut Vec<usize>,
    ) -> Result<(), NoMemory> {
        for (at, word) in self.words.iter().enumerate() {
            list_word(at, *word & !other.word(at), numbers)?;
        }
        Ok(())
    }

    /// Takes all numbers away, and gives them in their order.
    pub(crate) fn take(&mut self, alloc: Global) -> Result<Vec<usize>, NoMemory> {
        let mut numbers = Vec::new(alloc);
        self.list_beyond(&Marks::new(alloc), &mut numbers)?;
        for word in self.words.iter_mut() {
            *word = 0;
        }
        Ok(numbers)
    }
}
