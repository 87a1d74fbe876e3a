//! The words of a table for tests, and what the operations of calls do to them.
use atomic_step::Op;
use std::alloc::{AllocError, Global};
use table_shape::Shape;

/// The words of a table, and the same without the changes that no item of a scene has told.
#[derive(Drop)]
pub(crate) struct Table {
    words: Vec<u64>,
    told: Vec<u64>,
}

/// Puts a word at an index, and gives the one that stood there.
fn replace(words: &mut Vec<u64>, at: usize, value: u64) -> u64 {
    match words.get_mut(at) {
        Some(word) => {
            let found = *word;
            *word = value;
            found
        }
        None => 0,
    }
}

impl Table {
    /// The words of a shape, all 0.
    pub(crate) fn of(alloc: Global, shape: Shape) -> Result<Table, AllocError> {
        let mut words = Vec::new(alloc);
        let mut told = Vec::new(alloc);
        for _ in 0..shape.check().ok().unwrap_or(0) {
            words.push(0)?;
            told.push(0)?;
        }
        Ok(Table { words, told })
    }

    /// A word that no call wrote.
    pub(crate) fn put(&mut self, at: usize, value: u64) {
        let _ = replace(&mut self.words, at, value);
        let _ = replace(&mut self.told, at, value);
    }

    /// Makes an operation, and gives the word that it found.
    pub(crate) fn make(&mut self, op: Op) -> u64 {
        let at = op.at() as usize;
        let found = self.words.get(at).copied().unwrap_or(0);
        replace(&mut self.words, at, op.after(found))
    }

    /// Whether the word was changed to this one, which is told from now on.
    pub(crate) fn leaves(&mut self, at: usize, word: u64) -> bool {
        self.words.get(at).copied() == Some(word) && replace(&mut self.told, at, word) != word
    }

    /// The index of the first word that is not as the items have told.
    pub(crate) fn untold(&self) -> Option<usize> {
        self.words
            .iter()
            .zip(&self.told)
            .position(|(word, told)| word != told)
    }
}
