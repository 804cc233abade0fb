//! The directives of a text that is printed.

ghost use Rattle.std.specs.Prelude.{◌≡◌};
ghost use Rattle.dy_construct_parts.specs.Directives.{has_directives};

/// Whether the directives of a text are `%%`, and `%d` so many times (DRM 12, "format").
pub fn has_directives(text: &[u8], count: usize) -> bool
    ensures { result ≡ has_directives text.now count }
{
    let mut left = count;
    let mut rest = text;
    while let Some((byte, after)) = rest.split_first() {
        if *byte == b'%' {
            let Some((letter, behind)) = after.split_first() else {
                return false;
            };
            if *letter == b'd' {
                if left == 0 {
                    return false;
                }
                left -= 1;
            } else if *letter != b'%' {
                return false;
            }
            rest = behind;
        } else {
            rest = after;
        }
    }
    left == 0
}
