//! A text that is written word by word.

use std::alloc::{AllocError, Global};

/// What was written so far, with a blank between two words, and whether memory was lacking for some
/// of it.
#[derive(Drop)]
pub struct Written {
    text: String,
    is_cut: bool,
}

impl Written {
    pub fn new(alloc: Global) -> Written {
        Written {
            text: String::new(alloc),
            is_cut: false,
        }
    }

    fn push(&mut self, text: &str) {
        if self.text.push_str(text).is_err() {
            self.is_cut = true;
        }
    }

    fn blank(&mut self) {
        if !self.text.is_empty() {
            self.push(" ");
        }
    }

    pub fn word(&mut self, word: &str) {
        self.blank();
        self.push(word);
    }

    /// Bytes as a word.
    pub fn bytes(&mut self, bytes: &[u8]) {
        self.blank();
        for byte in bytes {
            if self.text.push(char::from(*byte)).is_err() {
                self.is_cut = true;
            }
        }
    }

    pub fn number(&mut self, number: u32) {
        self.blank();
        if write!(self.text, "{number}").is_err() {
            self.is_cut = true;
        }
    }

    /// The whole text, unless memory was lacking.
    pub fn whole(self) -> Result<String, AllocError> {
        let Written { text, is_cut } = self;
        if is_cut { Err(AllocError) } else { Ok(text) }
    }
}
