//! Places in a text.

ghost use Rattle.std.specs.Prelude.{◌≡◌};
ghost use Rattle.dy_sources.specs.Points.{point_behind, point_at, start};

/// A place in a text, as a user counts.
#[derive(Clone, Copy, Debug, PartialEq, Eq)]
pub(crate) struct Point {
    /// From 1.
    pub(crate) line: u64,
    /// From 1, in bytes.
    pub(crate) column: u64,
}

/// The begin of a text.
pub(crate) fn start() -> Point
    ensures { result ≡ start }
{
    Point { line: 1, column: 1 }
}

/// The place behind these bytes.
fn point_behind(bytes: &[u8]) -> Point
    ensures { result ≡ point_behind bytes.now }
{
    let mut point = start();
    for byte in bytes {
        if *byte == b'\n' {
            point.line += 1;
            point.column = 1;
        } else {
            point.column += 1;
        }
    }
    point
}

/// The place at this offset of a text, or its end where the text is shorter.
pub(crate) fn point_at(text: &[u8], offset: usize) -> Point
    ensures { result ≡ point_at text.now offset }
{
    point_behind(&text[..text.len().min(offset)])
}
