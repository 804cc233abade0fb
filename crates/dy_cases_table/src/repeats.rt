//! Texts that repeat parts of themselves.

use std::alloc::{AllocError, Global};

/// The most times that a part is repeated.
const COUNT_LIMIT: usize = 8_388_608;

/// A text in which `«3|x»` stands for `xxx`.
pub(crate) fn expanded(alloc: Global, text: &str) -> Result<String, AllocError> {
    let mut whole = String::new(alloc);
    for (place, piece) in text.split('«').enumerate() {
        if place == 0 {
            whole.push_str(piece)?;
        } else {
            add_repeated(alloc, &mut whole, piece)?;
        }
    }
    Ok(whole)
}

/// Adds `3|x»y` as `xxxy`.
fn add_repeated(alloc: Global, whole: &mut String, piece: &str) -> Result<(), AllocError> {
    let (repeated, rest) = piece.split_once('»').unwrap_or((piece, ""));
    let (count, unit) = repeated.split_once('|').unwrap_or(("", ""));
    let count: usize = count.parse().unwrap_or(0);
    whole.push_str(unit.repeat(alloc, count.min(COUNT_LIMIT))?.as_str())?;
    whole.push_str(rest)
}
