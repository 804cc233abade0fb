//! Groups by examples. Expected values come from the rules of docs/LANGUAGE-groups.md.

use dy_base::{Fault, Items, Place, Refusal, Text, fold};
use dy_fragment::group;
use dy_tree::{Fragment, MacroKind, Token, TokenKind, Word, Words};
use std::alloc::{AllocError, AllocFailed, Global};
use std::test::Fail;

const STATEMENTS: [&[u8]; 10] = [
    b"begin", b"block", b"case", b"for", b"if", b"method", b"select", b"unless", b"until", b"while",
];

const DEFINITIONS: [&[u8]; 10] = [
    b"class",
    b"constant",
    b"domain",
    b"function",
    b"generic",
    b"library",
    b"macro",
    b"method",
    b"module",
    b"variable",
];

fn add_word(
    alloc: Global,
    words: &mut Items<Word>,
    name: &[u8],
    kind: MacroKind,
    at: Option<u32>,
) -> Result<(), AllocError> {
    let name = fold(alloc, name)?;
    words.push(Word {
        module: 1,
        name,
        kind,
        at,
    })?;
    Ok(())
}

/// The built-in words, and three macros of module 1.
fn words(alloc: Global) -> Result<Words, AllocError> {
    let mut items = Items::new(alloc);
    for name in STATEMENTS {
        add_word(alloc, &mut items, name, MacroKind::Statement, None)?;
    }
    for name in DEFINITIONS {
        add_word(alloc, &mut items, name, MacroKind::Definition, None)?;
    }
    add_word(alloc, &mut items, b"repeat", MacroKind::Statement, Some(0))?;
    add_word(alloc, &mut items, b"table", MacroKind::Definition, Some(1))?;
    add_word(alloc, &mut items, b"call", MacroKind::Function, Some(2))?;
    Ok(Words { items })
}

/// A word that ends in `@` is a name of module 2, any other one of module 1.
fn kind_of(text: &[u8]) -> (TokenKind, usize, usize, u32) {
    match text {
        [b'\\', ..] => (TokenKind::Escaped, 1, 0, 1),
        [b'a'..=b'z', .., b'@'] => (TokenKind::Name, 0, 1, 2),
        [b'a'..=b'z', ..] => (TokenKind::Name, 0, 0, 1),
        [b'<', _, ..] => (TokenKind::Name, 0, 0, 1),
        [b'0'..=b'9', ..] => (TokenKind::Int, 0, 0, 1),
        [b'='] | [b'+'] => (TokenKind::Operator, 0, 0, 1),
        _ => (TokenKind::Punctuation, 0, 0, 1),
    }
}

fn part(text: &[u8], skip: usize, drop: usize) -> &[u8] {
    if drop <= text.len() && skip <= text.len() - drop {
        &text[skip..text.len() - drop]
    } else {
        text
    }
}

fn token_of(alloc: Global, text: &[u8], offset: u32) -> Result<Token, AllocError> {
    let (kind, skip, drop, module) = kind_of(text);
    Ok(Token {
        kind,
        text: Text::of(alloc, part(text, skip, drop))?,
        number: 0,
        place: Place { file: 7, offset },
        origin: 0,
        module,
    })
}

/// The tokens of a text with a blank between them. The offset of a token is its number.
fn tokens_of(alloc: Global, text: &str) -> Result<Items<Token>, AllocError> {
    let mut tokens = Items::new(alloc);
    let mut offset: u32 = 0;
    for piece in text.split(' ') {
        tokens.push(token_of(alloc, piece.as_bytes(), offset)?)?;
        offset = offset.saturating_add(1);
    }
    Ok(tokens)
}

fn write_text(out: &mut String, token: &Token) -> Result<(), AllocError> {
    if let TokenKind::Escaped = token.kind {
        out.push_str("\\")?;
    }
    for b in token.text.bytes() {
        out.push(char::from(*b))?;
    }
    Ok(())
}

#[cycle(show)]
fn write_fragment(out: &mut String, fragment: &Fragment) -> Result<(), AllocError> {
    match fragment {
        Fragment::One(token) => {
            out.push_str(" ")?;
            write_text(out, token)
        }
        Fragment::Group {
            opener,
            inner,
            closer,
        } => {
            out.push_str(" {")?;
            write_text(out, opener)?;
            write_fragments(out, inner)?;
            out.push_str(" ")?;
            write_text(out, closer)?;
            out.push_str("}")
        }
    }
}

#[cycle(show)]
fn write_fragments(out: &mut String, fragments: &Vec<Fragment>) -> Result<(), AllocError> {
    for fragment in fragments {
        write_fragment(out, fragment)?;
    }
    Ok(())
}

fn write_fault(out: &mut String, fault: &Fault) -> Result<(), AllocError> {
    let kind = fault.kind;
    let place = match fault.place {
        Some(place) => place.offset,
        None => 999,
    };
    write!(out, " {kind:?} @{place}")
}

fn write_groups(
    out: &mut String,
    grouped: Result<Items<Fragment>, Refusal>,
) -> Result<(), AllocError> {
    match grouped {
        Ok(fragments) => {
            let fragments = fragments.into_vec();
            write_fragments(out, &fragments)
        }
        Err(Refusal::Fault(fault)) => write_fault(out, &fault),
        Err(Refusal::Memory) => out.push_str(" memory"),
    }
}

/// Each group in braces, with its opener and its closer.
fn shown(alloc: Global, text: &str) -> Result<String, AllocError> {
    let words = words(alloc)?;
    let tokens = tokens_of(alloc, text)?;
    let mut out = String::new(alloc);
    write_groups(&mut out, group(alloc, &tokens, &words))?;
    Ok(out)
}

fn push_all(
    alloc: Global,
    tokens: &mut Items<Token>,
    text: &[u8],
    count: u32,
    from: u32,
) -> Result<(), AllocError> {
    for n in 0..count {
        tokens.push(token_of(alloc, text, from.saturating_add(n))?)?;
    }
    Ok(())
}

/// What becomes of `front`, so many openers, so many closers and `back`.
fn nested(
    alloc: Global,
    front: &[u8],
    openers: (&[u8], u32),
    closers: (&[u8], u32),
    back: &[u8],
) -> Result<String, AllocError> {
    let words = words(alloc)?;
    let mut tokens = Items::new(alloc);
    tokens.push(token_of(alloc, front, 0)?)?;
    push_all(alloc, &mut tokens, openers.0, openers.1, 1)?;
    push_all(
        alloc,
        &mut tokens,
        closers.0,
        closers.1,
        openers.1.saturating_add(1),
    )?;
    let last = openers.1.saturating_add(closers.1).saturating_add(1);
    tokens.push(token_of(alloc, back, last)?)?;
    let mut out = String::new(alloc);
    match group(alloc, &tokens, &words) {
        Ok(_fragments) => out.push_str(" grouped")?,
        Err(Refusal::Fault(fault)) => write_fault(&mut out, &fault)?,
        Err(Refusal::Memory) => out.push_str(" memory")?,
    }
    Ok(out)
}

const BRACKETS: [(&str, &str); 18] = [
    ("( a )", " {( a )}"),
    ("[ a ]", " {[ a ]}"),
    ("{ a }", " {{ a }}"),
    ("#( 1 )", " {#( 1 )}"),
    ("#[ 1 ]", " {#[ 1 ]}"),
    ("a ( b [ c ] ) d", " a {( b {[ c ]} )} d"),
    ("( ) ( )", " {( )} {( )}"),
    ("\\( a", " \\( a"),
    (")", " Unbalanced @0"),
    ("( ]", " Unbalanced @1"),
    ("[ )", " Unbalanced @1"),
    ("{ )", " Unbalanced @1"),
    ("#( ]", " Unbalanced @1"),
    ("#[ }", " Unbalanced @1"),
    ("( a [", " Unbalanced @2"),
    ("( [ ]", " Unbalanced @0"),
    ("( [ ) ]", " Unbalanced @2"),
    ("a ; b", " a ; b"),
];

const OPENERS: [(&str, &str); 15] = [
    ("begin a end", " {begin a end}"),
    ("block ( ) a end block", " {block {( )} a end}"),
    ("case a end case", " {case a end}"),
    ("for ( ) a end for", " {for {( )} a end}"),
    ("if ( a ) b else c end if", " {if {( a )} b else c end}"),
    ("method ( ) a end method", " {method {( )} a end}"),
    ("select ( a ) end select", " {select {( a )} end}"),
    ("unless ( a ) b end unless", " {unless {( a )} b end}"),
    ("until ( a ) b end until", " {until {( a )} b end}"),
    ("while ( a ) b end while", " {while {( a )} b end}"),
    ("repeat a end repeat", " {repeat a end}"),
    ("repeat@ a", " repeat a"),
    ("if@ a end if@", " {if a end}"),
    ("call a", " call a"),
    ("begin if end if end begin", " {begin {if end} end}"),
];

const ENDS: [(&str, &str); 17] = [
    ("begin end ; if end", " {begin end} ; {if end}"),
    ("end", " Unbalanced @0"),
    ("begin", " Unbalanced @0"),
    ("( begin )", " Unbalanced @2"),
    ("begin ( end", " Unbalanced @2"),
    ("begin a end if", " Unbalanced @3"),
    ("if a end if if", " Unbalanced @4"),
    ("begin a end class <x>", " Unbalanced @3"),
    ("begin a end table x", " Unbalanced @3"),
    ("begin a end repeat", " Unbalanced @3"),
    ("begin a end repeat@", " {begin a end} repeat"),
    ("begin a end call", " {begin a end} call"),
    ("begin a end \\if", " {begin a end} \\if"),
    ("begin a end b", " {begin a end} b"),
    (
        "begin a end define constant b = 1",
        " {begin a end} define constant b = 1",
    ),
    ("\\if a \\end", " \\if a \\end"),
    ("end if", " Unbalanced @0"),
];

const LOCALS: [(&str, &str); 8] = [
    (
        "local method f ( ) end method f",
        " local {method f {( )} end}",
    ),
    ("local method f ( ) end f", " local {method f {( )} end}"),
    (
        "local method f ( ) end f , method g ( ) end method g",
        " local {method f {( )} end} , {method g {( )} end}",
    ),
    ("local method f ( ) end g", " local {method f {( )} end} g"),
    (
        "local method \\+ ( ) end \\+",
        " local {method \\+ {( )} end}",
    ),
    ("method f ( ) end f", " {method f {( )} end} f"),
    ("method class ( ) end class", " Unbalanced @5"),
    ("a , method f ( ) end f", " a , {method f {( )} end} f"),
];

const DEFINED: [(&str, &str); 11] = [
    (
        "define class <x> ( <y> ) end class <x>",
        " {define class <x> {( <y> )} end}",
    ),
    (
        "define class <x> ( <y> ) end <x>",
        " {define class <x> {( <y> )} end}",
    ),
    (
        "define class <x> ( <y> ) end",
        " {define class <x> {( <y> )} end}",
    ),
    ("define class <x> end <y>", " {define class <x> end} <y>"),
    (
        "define class <x> end class <y>",
        " {define class <x> end} <y>",
    ),
    ("define class <x> end <x> class", " Unbalanced @5"),
    (
        "define sealed method f ( ) end method f",
        " {define sealed method f {( )} end}",
    ),
    (
        "define function f ( ) if a end end f",
        " {define function f {( )} {if a end} end}",
    ),
    ("define library l end library l", " {define library l end}"),
    ("define module m end module m", " {define module m end}"),
    (
        "define method \\+ ( ) end method \\+",
        " {define method \\+ {( )} end}",
    ),
];

const BARE: [(&str, &str); 12] = [
    ("define table t a end table t", " {define table t a end}"),
    ("define constant x = 1 ;", " define constant x = 1 ;"),
    ("define domain f ( )", " define domain f {( )}"),
    ("define generic f ( )", " define generic f {( )}"),
    (
        "define variable x = begin end",
        " define variable x = {begin end}",
    ),
    (
        "define if ( if ) class <x> end",
        " {define if {( if )} class <x> end}",
    ),
    ("define ( class ) end", " {define {( class )} end}"),
    ("define ; class", " Unbalanced @0"),
    ("define foo", " Unbalanced @0"),
    ("begin define", " Unbalanced @1"),
    ("( define foo ) class a end", " Unbalanced @3"),
    ("define function f end class", " Unbalanced @4"),
];

const MACROS: [(&str, &str); 16] = [
    (
        "define macro m { if ( a ) end } => { define } end macro m",
        " {define macro m {{ if {( a )} end }} => {{ define }} end}",
    ),
    (
        "define macro m { { end } end } end ; if end",
        " {define macro m {{ {{ end }} end }} end} ; {if end}",
    ),
    (
        "define macro m if { } end m",
        " {define macro m if {{ }} end}",
    ),
    ("define macro m ( end )", " Unbalanced @4"),
    ("define macro m { end }", " Unbalanced @0"),
    ("define macro m { } end if", " Unbalanced @6"),
    ("define macro m { } end begin end", " Unbalanced @6"),
    (
        "define macro m { } end ; begin end",
        " {define macro m {{ }} end} ; {begin end}",
    ),
    (
        "define { macro m end } end",
        " {define {{ macro m end }} end}",
    ),
    (
        "define { macro m { end } } if end macro m ; if end",
        " {define {{ macro m {{ end }} }} if end} ; {if end}",
    ),
    (
        "define { ( macro m end ) end } end",
        " {define {{ {( macro m end )} end }} end}",
    ),
    (
        "define ( { end { macro m end } end } ) { end } end",
        " {define {( {{ end {{ macro m end }} end }} )} {{ end }} end}",
    ),
    ("define ( { macro m } end )", " Unbalanced @6"),
    ("define { macro m end }", " Unbalanced @0"),
    (
        "define { a } { end } macro m if end",
        " {define {{ a }} {{ end }} macro m if end}",
    ),
    (
        "define { class if end } end",
        " {define {{ class {if end} }} end}",
    ),
];

/// Each case that gave something else than is wanted.
fn misses(alloc: Global, cases: &[(&str, &str)]) -> Result<String, AllocError> {
    let mut out = String::new(alloc);
    for (text, wanted) in cases {
        let got = shown(alloc, text)?;
        if got.as_str() != *wanted {
            write!(out, "{text} gave{got}; ")?;
        }
    }
    Ok(out)
}

#[test]
fn brackets(rt: HostRuntime) -> Result<(), Fail> {
    let misses = misses(rt.alloc(), &BRACKETS)?;
    assert!(rt; misses.as_str() == "", "{misses}");
    Ok(())
}

#[test]
fn statements(rt: HostRuntime) -> Result<(), Fail> {
    let misses = misses(rt.alloc(), &OPENERS)?;
    assert!(rt; misses.as_str() == "", "{misses}");
    Ok(())
}

#[test]
fn ends(rt: HostRuntime) -> Result<(), Fail> {
    let misses = misses(rt.alloc(), &ENDS)?;
    assert!(rt; misses.as_str() == "", "{misses}");
    Ok(())
}

#[test]
fn local_methods(rt: HostRuntime) -> Result<(), Fail> {
    let misses = misses(rt.alloc(), &LOCALS)?;
    assert!(rt; misses.as_str() == "", "{misses}");
    Ok(())
}

#[test]
fn definitions(rt: HostRuntime) -> Result<(), Fail> {
    let misses = misses(rt.alloc(), &DEFINED)?;
    assert!(rt; misses.as_str() == "", "{misses}");
    Ok(())
}

#[test]
fn definition_words(rt: HostRuntime) -> Result<(), Fail> {
    let misses = misses(rt.alloc(), &BARE)?;
    assert!(rt; misses.as_str() == "", "{misses}");
    Ok(())
}

#[test]
fn macros(rt: HostRuntime) -> Result<(), Fail> {
    let misses = misses(rt.alloc(), &MACROS)?;
    assert!(rt; misses.as_str() == "", "{misses}");
    Ok(())
}

#[test]
fn depths(rt: HostRuntime) -> Result<(), Fail> {
    let alloc = rt.alloc();
    let at_limit = nested(alloc, b"a", (b"(", 200), (b")", 200), b"b")?;
    assert!(rt; at_limit.as_str() == " grouped", "{at_limit}");
    let too_deep = nested(alloc, b"a", (b"begin", 201), (b"end", 201), b"b")?;
    assert!(rt; too_deep.as_str() == " TooDeep @201", "{too_deep}");
    let unfit = nested(alloc, b"a", (b"(", 201), (b")", 201), b")")?;
    assert!(rt; unfit.as_str() == " TooDeep @201", "{unfit}");
    let open_before = nested(alloc, b"(", (b"(", 200), (b")", 200), b"b")?;
    assert!(rt; open_before.as_str() == " Unbalanced @0", "{open_before}");
    let open_here = nested(alloc, b"a", (b"(", 201), (b")", 0), b"b")?;
    assert!(rt; open_here.as_str() == " Unbalanced @201", "{open_here}");
    let open_after = nested(alloc, b"a", (b"(", 202), (b")", 0), b"b")?;
    assert!(rt; open_after.as_str() == " TooDeep @201", "{open_after}");
    Ok(())
}
