//! A text that is written piece by piece.

use dy_tree::Token;
use std::alloc::{AllocError, Global};

/// What was written so far, and whether memory was lacking for some of it.
#[derive(Drop)]
pub struct Written {
    text: String,
    is_cut: bool,
}

impl Written {
    /// An empty text.
    pub fn new(alloc: Global) -> Written {
        Written {
            text: String::new(alloc),
            is_cut: false,
        }
    }

    /// Adds a word.
    pub fn word(&mut self, word: &str) {
        if self.text.push_str(word).is_err() {
            self.is_cut = true;
        }
    }

    pub(crate) fn bytes(&mut self, bytes: &[u8]) {
        for byte in bytes {
            if self.text.push(char::from(*byte)).is_err() {
                self.is_cut = true;
            }
        }
    }

    /// Adds a number in decimal digits.
    pub fn number(&mut self, number: i64) {
        if write!(self.text, "{number}").is_err() {
            self.is_cut = true;
        }
    }

    /// A word and a token.
    pub(crate) fn token(&mut self, word: &str, token: &Token) {
        self.word(word);
        self.bytes(token.text.bytes());
    }

    /// Each token behind a blank.
    pub(crate) fn tokens(&mut self, tokens: &[Token]) {
        for token in tokens {
            self.token(" ", token);
        }
    }

    /// A word and a token, if there is one.
    pub(crate) fn maybe(&mut self, word: &str, token: &Option<Token>) {
        if let Some(token) = token {
            self.token(word, token);
        }
    }

    /// A word, if it is so.
    pub(crate) fn flag(&mut self, word: &str, holds: bool) {
        if holds {
            self.word(word);
        }
    }

    /// A local that no name means.
    pub(crate) fn hidden(&mut self, number: usize) {
        if write!(self.text, "%{number}").is_err() {
            self.is_cut = true;
        }
    }

    /// The whole text, unless memory was lacking.
    pub fn whole(self) -> Result<String, AllocError> {
        let Written { text, is_cut } = self;
        if is_cut { Err(AllocError) } else { Ok(text) }
    }
}
