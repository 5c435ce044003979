//! The words of a serial run.
ghost use Rattle.std.specs.Prelude.{◌≡◌, slice_index, slice_set};

/// The words of all elements, and how many records may still be made.
#[derive(Drop)]
pub struct SerialMemory {
    pub words: Vec<u64>,
    pub left: u32,
}

impl SerialMemory {
    /// A word; 0 where there is none.
    pub fn load(&self, word: usize) -> u64
        ensures { result ≡ slice_index self.now.words.items word }
    {
        if word < self.words.len() {
            self.words[word]
        } else {
            0
        }
    }

    /// Sets a word.
    pub fn store(&mut self, word: usize, bits: u64)
        ensures words { self.new.words.items ≡ slice_set self.old.words.items word bits }
        ensures left { self.new.left ≡ self.old.left }
    {
        if word < self.words.len() {
            self.words[word] = bits;
        }
    }
}
