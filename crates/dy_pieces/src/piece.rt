//! The next piece of a text: its kind and length.

ghost use Rattle.std.specs.Prelude.{◌≡◌, ◌∷◌, [], ◌+◌, ◌≤◌, ◌<◌, length, drop, IfOk, IfSome, true};
ghost use Rattle.std.specs.Prelude.{false, None};
ghost use Rattle.std.specs.List.{prefix_len};
ghost use Rattle.dy_pieces.specs.Bytes.{in_name, is_digit, is_blank, in_line, in_base};
ghost use Rattle.dy_pieces.specs.Words.{sign_of, escapable, is_listed, begins, marks, constraints};
ghost use Rattle.dy_pieces.specs.Words.{front_in};
ghost use Rattle.dy_pieces.specs.Scan.{literal_end, comment_end};
ghost use Rattle.dy_pieces.specs.Pieces as pieces;
ghost use Rattle.dy_base.specs.Folding.{folded_byte};

use crate::class::{Class, Piece, base_of, class_of, in_base, in_name, is_blank, is_digit};
use dy_base::Kind;
use dy_tree::TokenKind;

fn name_run(bytes: &[u8]) -> usize
    ensures len { result ≡ prefix_len in_name bytes.now }
    ensures within { result ≤ length bytes.now }
{
    bytes.iter().take_while(|b| in_name(**b)).count()
}

fn digit_run(bytes: &[u8]) -> usize
    ensures len { result ≡ prefix_len is_digit bytes.now }
    ensures within { result ≤ length bytes.now }
{
    bytes.iter().take_while(|b| is_digit(**b)).count()
}

fn base_run(base: u8, bytes: &[u8]) -> usize
    ensures len { result ≡ prefix_len (in_base base) bytes.now }
    ensures within { result ≤ length bytes.now }
{
    bytes.iter().take_while(|b| in_base(base, **b)).count()
}

fn blank_run(bytes: &[u8]) -> usize
    ensures len { result ≡ prefix_len is_blank bytes.now }
    ensures within { result ≤ length bytes.now }
{
    bytes.iter().take_while(|b| is_blank(**b)).count()
}

fn line_run(bytes: &[u8]) -> usize
    ensures len { result ≡ prefix_len in_line bytes.now }
    ensures within { result ≤ length bytes.now }
{
    bytes.iter().take_while(|b| **b != 10).count()
}

/// The length of the name at the front.
fn name_len(bytes: &[u8]) -> Option<usize>
    ensures len { result ≡ pieces.name_len bytes.now }
    ensures within { IfSome result (λ n. (0 < n) × (n ≤ length bytes.now)) }
{
    for (i, b) in bytes.iter().enumerate() {
        match class_of(*b) {
            Class::Letter => return Some(i + 1 + name_run(&bytes[i + 1..])),
            Class::Graphic => {}
            _ => return None,
        }
    }
    None
}

fn ends_symbol(bytes: &[u8]) -> bool
    ensures value { result ≡ pieces.ends_symbol bytes.now }
    ensures some { result ≡ true → 0 < length bytes.now }
{
    match bytes {
        [b':', b':', ..] => false,
        [b':', b'=', ..] => false,
        [b':', ..] => true,
        _ => false,
    }
}

fn sign_of_one(a: u8) -> Option<TokenKind>
    ensures { result ≡ sign_of (a ∷ []) }
{
    match a {
        b'+' | b'-' | b'*' | b'/' | b'^' | b'=' | b'<' | b'>' | b'&' | b'|' | b'~' => Some(
            TokenKind::Operator,
        ),
        b'(' | b')' | b'[' | b']' | b'{' | b'}' | b',' | b';' | b'.' => Some(
            TokenKind::Punctuation,
        ),
        _ => None,
    }
}

fn sign_of_two(a: u8, b: u8) -> Option<TokenKind>
    ensures { result ≡ sign_of (a ∷ b ∷ []) }
{
    match (a, b) {
        (b'=', b'=') | (b'~', b'=') | (b'<', b'=') | (b'>', b'=') | (b':', b'=') => Some(
            TokenKind::Operator,
        ),
        (b':', b':') | (b'=', b'>') => Some(TokenKind::Punctuation),
        _ => None,
    }
}

fn sign_of_three(a: u8, b: u8, c: u8) -> Option<TokenKind>
    ensures { result ≡ sign_of (a ∷ b ∷ c ∷ []) }
{
    match (a, b, c) {
        (b'~', b'=', b'=') => Some(TokenKind::Operator),
        (b'.', b'.', b'.') => Some(TokenKind::Punctuation),
        _ => None,
    }
}

fn is_escapable(bytes: &[u8]) -> bool
    ensures { result ≡ is_listed escapable bytes.now }
{
    match bytes {
        [b'~', b'=', b'='] => true,
        [b'=' | b'~' | b'<' | b'>', b'='] => true,
        [b'+' | b'-' | b'*' | b'/' | b'^' | b'=' | b'<' | b'>' | b'~'] => true,
        _ => false,
    }
}

/// How many bytes there are up to the closing quote and with it, where it stands on the same line.
fn literal_end(quote: u8, bytes: &[u8]) -> Option<usize>
    ensures end { result ≡ literal_end quote false bytes.now }
    ensures within { IfSome result (λ n. (0 < n) × (n ≤ length bytes.now)) }
{
    let mut escaped = false;
    for (i, b) in bytes.iter().enumerate() {
        let b = *b;
        if b == 10 {
            return None;
        }
        if escaped {
            escaped = false;
        } else if b == quote {
            return Some(i + 1);
        } else if b == b'\\' {
            escaped = true;
        }
    }
    None
}

/// How many bytes there are up to the end of the comment, whose opener is before these.
fn comment_end(bytes: &[u8]) -> Option<usize>
    ensures end { result ≡ comment_end 1 0 bytes.now }
    ensures within { IfSome result (λ n. n ≤ length bytes.now) }
{
    let mut depth: usize = 1;
    let mut before = 0;
    for (i, b) in bytes.iter().enumerate() {
        let b = *b;
        if before == b'*' && b == b'/' {
            if depth == 1 {
                return Some(i + 1);
            }
            depth -= 1;
            before = 0;
        } else if before == b'/' && b == b'*' {
            depth += 1;
            before = 0;
        } else {
            before = b;
        }
    }
    None
}

fn folded_byte(b: u8) -> u8
    ensures { result ≡ folded_byte b }
{
    b.to_ascii_lowercase()
}

/// Whether the bytes begin with the word, in either case.
fn begins(word: &[u8], bytes: &[u8]) -> bool
    ensures value { result ≡ begins word.now bytes.now }
    ensures within { result ≡ true → length word.now ≤ length bytes.now }
{
    for (i, x) in word.iter().enumerate() {
        if bytes.len() <= i {
            return false;
        }
        if folded_byte(bytes[i]) != *x {
            return false;
        }
    }
    true
}

fn mark_len(bytes: &[u8]) -> Option<usize>
    ensures len { result ≡ front_in marks bytes.now }
    ensures within { IfSome result (λ n. n ≤ length bytes.now) }
{
    if begins(b"all-keys", bytes) {
        Some(8)
    } else if begins(b"next", bytes) {
        Some(4)
    } else if begins(b"rest", bytes) {
        Some(4)
    } else if begins(b"key", bytes) {
        Some(3)
    } else if begins(b"t", bytes) {
        Some(1)
    } else if begins(b"f", bytes) {
        Some(1)
    } else {
        None
    }
}

fn constraint_word(bytes: &[u8]) -> Option<usize>
    ensures len { result ≡ front_in constraints bytes.now }
    ensures within { IfSome result (λ n. n ≤ length bytes.now) }
{
    if begins(b"expression", bytes) {
        Some(10)
    } else if begins(b"case-body", bytes) {
        Some(9)
    } else if begins(b"variable", bytes) {
        Some(8)
    } else if begins(b"token", bytes) {
        Some(5)
    } else if begins(b"name", bytes) {
        Some(4)
    } else if begins(b"body", bytes) {
        Some(4)
    } else if begins(b"*", bytes) {
        Some(1)
    } else {
        None
    }
}

fn constraint_len(bytes: &[u8]) -> usize
    ensures len { result ≡ pieces.constraint_len bytes.now }
    ensures within { result ≤ length bytes.now }
{
    match bytes {
        [b':', rest @ ..] => match constraint_word(rest) {
            Some(n) => 1 + n,
            None => 0,
        },
        _ => 0,
    }
}

fn word_at(n: usize, bytes: &[u8]) -> (Piece, usize)
    requires { n ≤ length bytes.now }
    ensures value { result ≡ pieces.word_after n (drop n bytes.now) }
    ensures within { (n ≤ result.1) × (result.1 ≤ length bytes.now) }
{
    if ends_symbol(&bytes[n..]) {
        (Piece::Token(TokenKind::Symbol), n + 1)
    } else {
        (Piece::Token(TokenKind::Name), n)
    }
}

fn front_three(bytes: &[u8]) -> Option<TokenKind>
    ensures value { result ≡ pieces.front 3 bytes.now }
    ensures within { IfSome result (λ _. 3 ≤ length bytes.now) }
{
    match bytes {
        [a, b, c, ..] => sign_of_three(*a, *b, *c),
        _ => None,
    }
}

fn front_two(bytes: &[u8]) -> Option<TokenKind>
    ensures value { result ≡ pieces.front 2 bytes.now }
    ensures within { IfSome result (λ _. 2 ≤ length bytes.now) }
{
    match bytes {
        [a, b, ..] => sign_of_two(*a, *b),
        _ => None,
    }
}

fn front_one(bytes: &[u8]) -> Option<TokenKind>
    ensures value { result ≡ pieces.front 1 bytes.now }
    ensures within { IfSome result (λ _. 1 ≤ length bytes.now) }
{
    match bytes {
        [a, ..] => sign_of_one(*a),
        _ => None,
    }
}

/// An operator or punctuation.
fn sign_at(bytes: &[u8]) -> Result<(Piece, usize), Kind>
    ensures value { result ≡ pieces.sign_at bytes.now }
    ensures within { IfOk result (λ p. (0 < p.1) × (p.1 ≤ length bytes.now)) }
{
    match front_three(bytes) {
        Some(kind) => Ok((Piece::Token(kind), 3)),
        None => match front_two(bytes) {
            Some(kind) => Ok((Piece::Token(kind), 2)),
            None => match front_one(bytes) {
                Some(kind) => Ok((Piece::Token(kind), 1)),
                None => Err(Kind::BadByte),
            },
        },
    }
}

/// After a slash, which has been counted.
fn slash_at(bytes: &[u8]) -> Result<(Piece, usize), Kind>
    ensures value { result ≡ pieces.slash_at bytes.now }
    ensures within { IfOk result (λ p. (0 < p.1) × (p.1 ≤ 1 + length bytes.now)) }
{
    match bytes {
        [b'/', rest @ ..] => Ok((Piece::Comment, 2 + line_run(rest))),
        [b'*', rest @ ..] => match comment_end(rest) {
            Some(n) => Ok((Piece::Comment, 2 + n)),
            None => Err(Kind::OpenComment),
        },
        _ => Ok((Piece::Token(TokenKind::Operator), 1)),
    }
}

fn number_at(base: Option<u8>, bytes: &[u8]) -> Result<(Piece, usize), Kind>
    ensures value { result ≡ pieces.number_at base bytes.now }
    ensures within { IfOk result (λ p. (0 < p.1) × (p.1 ≤ 2 + length bytes.now)) }
{
    match base {
        None => Err(Kind::BadLiteral),
        Some(base) => {
            let n = base_run(base, bytes);
            if n == 0 {
                Err(Kind::BadLiteral)
            } else {
                Ok((Piece::Token(TokenKind::Int), 2 + n))
            }
        }
    }
}

/// A literal after its opener of `n` bytes, which are not among these.
fn closed(kind: TokenKind, n: usize, quote: u8, bytes: &[u8]) -> Result<(Piece, usize), Kind>
    requires { n ≤ 2 }
    ensures value { result ≡ pieces.closed (Piece.Token kind) n Kind.OpenString
        (literal_end quote false bytes.now) }
    ensures within { IfOk result (λ p. (n < p.1) × (p.1 ≤ n + length bytes.now)) }
{
    match literal_end(quote, bytes) {
        Some(m) => Ok((Piece::Token(kind), n + m)),
        None => Err(Kind::OpenString),
    }
}

/// After `#`.
fn hash_at(bytes: &[u8]) -> Result<(Piece, usize), Kind>
    ensures value { result ≡ pieces.hash_at bytes.now }
    ensures within { IfOk result (λ p. (0 < p.1) × (p.1 ≤ 1 + length bytes.now)) }
{
    match bytes {
        [] => Err(Kind::BadLiteral),
        [b'"', rest @ ..] => closed(TokenKind::Symbol, 2, b'"', rest),
        [b'(' | b'[', ..] => Ok((Piece::Token(TokenKind::Punctuation), 2)),
        [b, rest @ ..] => match mark_len(bytes) {
            Some(n) => Ok((Piece::Token(TokenKind::Mark), 1 + n)),
            None => number_at(base_of(*b), rest),
        },
    }
}

/// After `?`.
fn question_at(bytes: &[u8]) -> Result<(Piece, usize), Kind>
    ensures value { result ≡ pieces.question_at bytes.now }
    ensures within { IfOk result (λ p. (0 < p.1) × (p.1 ≤ 1 + length bytes.now)) }
{
    match bytes {
        [] => Err(Kind::BadLiteral),
        [b'=', rest @ ..] => match name_len(rest) {
            Some(n) => Ok((Piece::Token(TokenKind::CallSite), 2 + n)),
            None => Err(Kind::BadLiteral),
        },
        [b':', rest @ ..] => match constraint_word(rest) {
            Some(n) => Ok((Piece::Token(TokenKind::PatternVar), 2 + n)),
            None => Err(Kind::BadLiteral),
        },
        [_, ..] => match name_len(bytes) {
            Some(n) => Ok((
                Piece::Token(TokenKind::PatternVar),
                1 + n + constraint_len(&bytes[n..]),
            )),
            None => Err(Kind::BadLiteral),
        },
    }
}

/// An operator after a backslash.
fn escaped_operator(bytes: &[u8]) -> Result<(Piece, usize), Kind>
    ensures value { result ≡ pieces.escaped_operator bytes.now }
    ensures within { IfOk result (λ p. (0 < p.1) × (p.1 ≤ 1 + length bytes.now)) }
{
    if 3 <= bytes.len() && is_escapable(&bytes[..3]) {
        Ok((Piece::Token(TokenKind::Escaped), 4))
    } else if 2 <= bytes.len() && is_escapable(&bytes[..2]) {
        Ok((Piece::Token(TokenKind::Escaped), 3))
    } else if 1 <= bytes.len() && is_escapable(&bytes[..1]) {
        Ok((Piece::Token(TokenKind::Escaped), 2))
    } else {
        Err(Kind::BadByte)
    }
}

/// After a backslash.
fn escaped(bytes: &[u8]) -> Result<(Piece, usize), Kind>
    ensures value { result ≡ pieces.escaped (pieces.name_len bytes.now) bytes.now }
    ensures within { IfOk result (λ p. (0 < p.1) × (p.1 ≤ 1 + length bytes.now)) }
{
    match name_len(bytes) {
        Some(n) => Ok((Piece::Token(TokenKind::Escaped), 1 + n)),
        None => escaped_operator(bytes),
    }
}

/// A name, a symbol or a sign.
fn named(name: Option<usize>, bytes: &[u8]) -> Result<(Piece, usize), Kind>
    requires { IfSome name (λ n. (0 < n) × (n ≤ length bytes.now)) }
    ensures value { result ≡ pieces.named name bytes.now }
    ensures within { IfOk result (λ p. (0 < p.1) × (p.1 ≤ length bytes.now)) }
{
    match name {
        Some(n) => Ok(word_at(n, bytes)),
        None => sign_at(bytes),
    }
}

/// The kind of the next piece, and its length in bytes (DRM 2, "Lexical syntax"). `nameless` says
/// that it is known that no name begins here.
///
/// The fault is `BadByte` where nothing begins, `OpenComment` and `OpenString` where a comment or a
/// literal is not closed, and `BadLiteral` where `#` or `?` begins none of the forms of literals.
pub fn piece_at(bytes: &[u8], nameless: bool) -> Result<(Piece, usize), Kind>
    requires { nameless ≡ true → pieces.name_len bytes.now ≡ None }
    ensures value { result ≡ pieces.piece_at bytes.now }
    ensures within { IfOk result (λ p. (0 < p.1) × (p.1 ≤ length bytes.now)) }
{
    match bytes {
        [] => Err(Kind::BadByte),
        [b, rest @ ..] => match class_of(*b) {
            Class::Letter => named(name_len(bytes), bytes),
            Class::Graphic => {
                if nameless {
                    sign_at(bytes)
                } else {
                    named(name_len(bytes), bytes)
                }
            }
            Class::Joint => sign_at(bytes),
            Class::Sign => sign_at(bytes),
            Class::Digit => Ok((Piece::Token(TokenKind::Int), 1 + digit_run(rest))),
            Class::Slash => slash_at(rest),
            Class::Hash => hash_at(rest),
            Class::Question => question_at(rest),
            Class::Backslash => escaped(rest),
            Class::SingleQuote => closed(TokenKind::Char, 1, b'\'', rest),
            Class::DoubleQuote => closed(TokenKind::Str, 1, b'"', rest),
            Class::Space => Ok((Piece::Blank, 1 + blank_run(rest))),
            Class::Other => Err(Kind::BadByte),
        },
    }
}
