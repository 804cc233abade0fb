//! Tokens and headers by examples. Expected values come from the rules of docs/LANGUAGE.md.

use dy_base::{Fault, Refusal};
use dy_lexer::{lex, read_lid};
use dy_tree::Token;
use std::alloc::{AllocError, Global};
use std::process::Abort;
use std::test::Fail;

/// Printable bytes as they are, others and `\` as `\` and two digits.
fn write_bytes(out: &mut String, bytes: &[u8]) -> Result<(), AllocError> {
    for b in bytes {
        let b = *b;
        if 32 <= b && b <= 126 && b != b'\\' {
            out.push(char::from(b))?;
        } else {
            write!(out, "\\{b:02x}")?;
        }
    }
    Ok(())
}

fn write_token(out: &mut String, token: &Token, before: u32) -> Result<(), AllocError> {
    let kind = token.kind;
    write!(out, "{kind:?} ")?;
    write_bytes(out, token.text.bytes())?;
    if token.number != 0 {
        let number = token.number;
        write!(out, " = {number}")?;
    }
    let place = token.place.offset.saturating_sub(before);
    write!(out, " @{place}; ")
}

fn write_fault(out: &mut String, fault: &Fault, before: u32) -> Result<(), AllocError> {
    let kind = fault.kind;
    let place = match fault.place {
        Some(place) => place.offset.saturating_sub(before),
        None => 999,
    };
    write!(out, "{kind:?} @{place}")
}

/// The module, the tokens and their places, or the fault and its place; places are counted after
/// `before` bytes.
fn shown(alloc: Global, bytes: &[u8], before: u32) -> Result<String, AllocError> {
    let mut out = String::new(alloc);
    if 4096 < bytes.len() {
        return Ok(out);
    }
    match lex(alloc, 7, bytes) {
        Ok(source) => {
            if before == 0 {
                write_bytes(&mut out, source.module.bytes())?;
                out.push_str(": ")?;
            }
            for token in source.tokens.as_slice() {
                write_token(&mut out, token, before)?;
            }
        }
        Err(Refusal::Fault(fault)) => write_fault(&mut out, &fault, before)?,
        Err(Refusal::Memory) => out.push_str("memory")?,
    }
    Ok(out)
}

fn body_shown(alloc: Global, body: &[u8]) -> Result<String, AllocError> {
    let mut text = b"module: m\n\n".to_vec(alloc)?;
    text.extend_from_slice(body)?;
    shown(alloc, text.as_slice(), 11)
}

fn lid_shown(alloc: Global, bytes: &[u8]) -> Result<String, AllocError> {
    let mut out = String::new(alloc);
    if 4096 < bytes.len() {
        return Ok(out);
    }
    match read_lid(alloc, bytes) {
        Ok(lid) => {
            write_bytes(&mut out, lid.library.bytes())?;
            out.push_str(":")?;
            for name in lid.files.as_slice() {
                out.push_str(" ")?;
                write_bytes(&mut out, name.bytes())?;
            }
        }
        Err(Refusal::Fault(fault)) => write_fault(&mut out, &fault, 0)?,
        Err(Refusal::Memory) => out.push_str("memory")?,
    }
    Ok(out)
}

static NAMES: [(&[u8], &str); 12] = [
    (b"a B1 <c>", "Name a @0; Name b1 @2; Name <c> @5; "),
    (
        b"*d* $e !f &g >h |i ^j %k @l _m",
        "Name *d* @0; Name $e @4; Name !f @7; Name &g @10; Name >h @13; Name |i @16; Name ^j @19; Name %k @22; Name @l @25; Name _m @28; ",
    ),
    (b"x-y+z~u?v/w=t", "Name x-y+z~u?v/w=t @0; "),
    (b"<<a", "Name <<a @0; "),
    (b"a<b", "Name a<b @0; "),
    (
        b"\\If \\<x> \\+ \\- \\* \\/ \\^ \\= \\== \\~= \\~== \\< \\> \\<= \\>= \\~",
        "Escaped if @0; Escaped <x> @4; Escaped + @9; Escaped - @12; Escaped * @15; Escaped / @18; Escaped ^ @21; Escaped = @24; Escaped == @27; Escaped ~= @31; Escaped ~== @35; Escaped < @40; Escaped > @43; Escaped <= @46; Escaped >= @50; Escaped ~ @54; ",
    ),
    (b"\\&a \\|b", "Escaped &a @0; Escaped |b @4; "),
    (b"\\:=", "BadByte @0"),
    (b"x \\&", "BadByte @2"),
    (b"\\| y", "BadByte @0"),
    (b"\\", "BadByte @0"),
    (b"\\ a", "BadByte @0"),
];

static SYMBOLS: [(&[u8], &str); 12] = [
    (b"a:", "Symbol a @0; "),
    (b"A: b", "Symbol a @0; Name b @3; "),
    (b"a::", "Name a @0; Punctuation :: @1; "),
    (b"a:=", "Name a @0; Operator := @1; "),
    (b"a:b", "Symbol a @0; Name b @2; "),
    (b"<a>:", "Symbol <a> @0; "),
    (b"#\"x\"", "Symbol x @0; "),
    (b"#\"A b\"", "Symbol a b @0; "),
    (b"#\"\"", "Symbol  @0; "),
    (b"#\"\\n\\<41>\"", "Symbol \\0aa @0; "),
    (b"#\"a\tb\"", "BadLiteral @0"),
    (b"#\"a\n\"", "OpenString @0"),
];

static INTEGERS: [(&[u8], &str); 20] = [
    (b"0 12 007", "Int 0 @0; Int 12 = 12 @2; Int 007 = 7 @5; "),
    (
        b"9223372036854775807",
        "Int 9223372036854775807 = 9223372036854775807 @0; ",
    ),
    (b"9223372036854775808", "WideInteger @0"),
    (
        b"#x7fffffffffffffff",
        "Int #x7fffffffffffffff = 9223372036854775807 @0; ",
    ),
    (b"#x8000000000000000", "WideInteger @0"),
    (
        b"#xFF #o17 #b101 #Xa #B1 #O7",
        "Int #xff = 255 @0; Int #o17 = 15 @5; Int #b101 = 5 @10; Int #xa = 10 @16; Int #b1 = 1 @20; Int #o7 = 7 @24; ",
    ),
    (b"#b102", "Int #b10 = 2 @0; Int 2 = 2 @4; "),
    (b"#o18", "Int #o1 = 1 @0; Int 8 = 8 @3; "),
    (b"#xffffffffffffffffff", "WideInteger @0"),
    (b"1.5", "BadLiteral @0"),
    (b"1a", "BadLiteral @0"),
    (b"1_", "BadLiteral @0"),
    (b"99999999999999999999a", "BadLiteral @0"),
    (b"#xfg", "BadLiteral @0"),
    (b"1. 2", "Int 1 = 1 @0; Punctuation . @1; Int 2 = 2 @3; "),
    (b"1.", "Int 1 = 1 @0; Punctuation . @1; "),
    (b"1-2", "Int 1 = 1 @0; Operator - @1; Int 2 = 2 @2; "),
    (b"-1", "Operator - @0; Int 1 = 1 @1; "),
    (b"#x", "BadLiteral @0"),
    (b"#b2", "BadLiteral @0"),
];

static CHARACTERS: [(&[u8], &str); 20] = [
    (b"'a' ' ' '\"'", "Char a @0; Char   @4; Char \" @8; "),
    (
        b"'\\\\' '\\\"' '\\''",
        "Char \\5c @0; Char \" @5; Char ' @10; ",
    ),
    (
        b"'\\n' '\\r' '\\t' '\\0' '\\a' '\\b' '\\e' '\\f'",
        "Char \\0a @0; Char \\0d @5; Char \\09 @10; Char \\00 @15; Char \\07 @20; Char \\08 @25; Char \\1b @30; Char \\0c @35; ",
    ),
    (
        b"'\\<4>' '\\<41>' '\\<fF>'",
        "Char \\04 @0; Char A @7; Char \\ff @15; ",
    ),
    (b"'\\<411>'", "BadLiteral @0"),
    (b"'\\<>'", "BadLiteral @0"),
    (b"'\\<4'", "BadLiteral @0"),
    (b"'\\<g>'", "BadLiteral @0"),
    (b"'\\N'", "BadLiteral @0"),
    (b"''", "BadLiteral @0"),
    (b"'ab'", "BadLiteral @0"),
    (b"'\t'", "BadLiteral @0"),
    (b"'\x1f'", "BadLiteral @0"),
    (b"'\x7f'", "BadLiteral @0"),
    (b"'\xe4'", "Char \\e4 @0; "),
    (b"'\x80'", "Char \\80 @0; "),
    (b"a '", "OpenString @2"),
    (b"'a\n'", "OpenString @0"),
    (b"'ab\n", "OpenString @0"),
    (b"'\\'", "OpenString @0"),
];

static STRINGS: [(&[u8], &str); 15] = [
    (b"\"\"", "Str  @0; "),
    (b"\"a\tb'c\"", "Str a\\09b'c @0; "),
    (b"\"\\\\\\\"\\'\\n\\<41>\"", "Str \\5c\"'\\0aA @0; "),
    (b"\"\xff\"", "Str \\ff @0; "),
    (b"\"a\" \"b\"", "Str ab @0; "),
    (
        b"x \"a\" /* - */ \"b\" // c\n\"d\" y",
        "Name x @0; Str abd @2; Name y @27; ",
    ),
    (b"\"a\", \"b\"", "Str a @0; Punctuation , @3; Str b @5; "),
    (b"\"a\" 'b'", "Str a @0; Char b @4; "),
    (b"\"a", "OpenString @0"),
    (b"\"a\r\n\"", "OpenString @0"),
    (b"\"a\rb\"", "BadLiteral @0"),
    (b"\"\\q\"", "BadLiteral @0"),
    (b"\"\\q", "OpenString @0"),
    (b"\"a\\\n\"", "OpenString @0"),
    (b"\"\x01\"", "BadLiteral @0"),
];

static MARKS: [(&[u8], &str); 18] = [
    (
        b"#t #f #next #rest #key #all-keys",
        "Mark #t @0; Mark #f @3; Mark #next @6; Mark #rest @12; Mark #key @18; Mark #all-keys @23; ",
    ),
    (b"#T #All-Keys", "Mark #t @0; Mark #all-keys @3; "),
    (
        b"#true #keys",
        "Mark #t @0; Name rue @2; Mark #key @6; Name s @10; ",
    ),
    (b"#n", "BadLiteral @0"),
    (b"#", "BadLiteral @0"),
    (b"a #1", "BadLiteral @2"),
    (b"?x:name", "PatternVar ?x:name @0; "),
    (
        b"?X:Token ?a:variable ?b:expression ?c:body ?d:case-body ?e:*",
        "PatternVar ?x:token @0; PatternVar ?a:variable @9; PatternVar ?b:expression @21; PatternVar ?c:body @35; PatternVar ?d:case-body @43; PatternVar ?e:* @56; ",
    ),
    (b"?x", "PatternVar ?x @0; "),
    (b"?:name ?:*", "PatternVar ?:name @0; PatternVar ?:* @7; "),
    (b"?=X", "CallSite x @0; "),
    (b"?a:names", "PatternVar ?a:name @0; Name s @7; "),
    (b"?x:foo", "BadByte @2"),
    (b"?x ::", "PatternVar ?x @0; Punctuation :: @3; "),
    (b"?:foo", "BadLiteral @0"),
    (b"?", "BadLiteral @0"),
    (b"a ? b", "BadLiteral @2"),
    (b"?=1", "BadLiteral @0"),
];

static SIGNS: [(&[u8], &str); 17] = [
    (
        b"+ - * / ^ = == ~= ~== < > <= >= & | := ~",
        "Operator + @0; Operator - @2; Operator * @4; Operator / @6; Operator ^ @8; Operator = @10; Operator == @12; Operator ~= @15; Operator ~== @18; Operator < @22; Operator > @24; Operator <= @26; Operator >= @29; Operator & @32; Operator | @34; Operator := @36; Operator ~ @39; ",
    ),
    (
        b"()[]{},;.",
        "Punctuation ( @0; Punctuation ) @1; Punctuation [ @2; Punctuation ] @3; Punctuation { @4; Punctuation } @5; Punctuation , @6; Punctuation ; @7; Punctuation . @8; ",
    ),
    (
        b":: => ... #(#[",
        "Punctuation :: @0; Punctuation => @3; Punctuation ... @6; Punctuation #( @10; Punctuation #[ @12; ",
    ),
    (b"===>", "Operator == @0; Punctuation => @2; "),
    (b"....", "Punctuation ... @0; Punctuation . @3; "),
    (b"..", "Punctuation . @0; Punctuation . @1; "),
    (b"<<<=", "Operator < @0; Operator < @1; Operator <= @2; "),
    (
        b"**&|",
        "Operator * @0; Operator * @1; Operator & @2; Operator | @3; ",
    ),
    (b":", "BadByte @0"),
    (b"a : b", "BadByte @2"),
    (b"!", "BadByte @0"),
    (b"$ a", "BadByte @0"),
    (b"<!", "BadByte @1"),
    (b"`", "BadByte @0"),
    (b"a\x00", "BadByte @1"),
    (b"a \xe4", "BadByte @2"),
    (b"\x0b", "BadByte @0"),
];

static BLANKS: [(&[u8], &str); 14] = [
    (b" \t\x0c\r\n", ""),
    (b"a\rb", "Name a @0; Name b @2; "),
    (b"a // b ' \" /* \xe4\nc", "Name a @0; Name c @16; "),
    (b"a // b", "Name a @0; "),
    (b"/* a /* b */ c */ d", "Name d @18; "),
    (b"/* // */ a", "Name a @9; "),
    (b"/*/ */ a", "Name a @7; "),
    (b"/**/a", "Name a @4; "),
    (b"x /* a /* b */ c", "OpenComment @2"),
    (b"/*", "OpenComment @0"),
    (b"/*/", "OpenComment @0"),
    (b"*/", "Operator * @0; Operator / @1; "),
    (b"! '", "BadByte @0"),
    (b"' !", "OpenString @0"),
];

static SOURCES: [(&[u8], &str); 26] = [
    (b"module: m\n\na", "m: Name a @11; "),
    (b"Module: M\r\n\r\na", "m: Name a @13; "),
    (b"module: m", "m: "),
    (b"module: m\n", "m: "),
    (b"module:  \tA \n \t\nb", "a: Name b @16; "),
    (b"MODULE:x\nauthor: y\n more\nauthor: z\n\n", "x: "),
    (b"module: a\n b\r\n\tc \n\n", "a\\0a b\\0a\\09c: "),
    (b"module:\n\n", ": "),
    (b"a-1: v\nmodule: m\n\n", "m: "),
    (b"x: \xe4\nmodule: m\n\n", "m: "),
    (b"", "BadHeader @0"),
    (b"\nmodule: m\n", "BadHeader @0"),
    (b"x: y\n\na", "BadHeader @0"),
    (b"x: y\nbad\n\n", "BadHeader @0"),
    (b"module: m\nbad line\n\n", "BadHeader @10"),
    (b"module: m\n: c\n", "BadHeader @10"),
    (b"module: m\nmodule : x\n", "BadHeader @10"),
    (b"module: m\n_x: y\n", "BadHeader @10"),
    (b"module: m\n1x: y\n", "BadHeader @10"),
    (b"module: m\nk\xe4: y\n", "BadHeader @10"),
    (b" x\nmodule: m\n\n", "BadHeader @0"),
    (b"module: m\nmodule: m\n\n", "BadHeader @10"),
    (b"module: m\nx: y\nMODULE: n\nbad\n\n", "BadHeader @15"),
    (b"module: m\n\x0c\n\n", "BadHeader @10"),
    (b"module: m\nmodule: m\n\n'", "BadHeader @10"),
    (b"module: m\n\na '", "OpenString @13"),
];

static LIDS: [(&[u8], &str); 17] = [
    (b"library: L\nfiles: a\n", "l: a.dylan"),
    (
        b"Files: a.dylan\n  b\n\tc.dylan \nLIBRARY: x\n",
        "x: a.dylan b.dylan c.dylan",
    ),
    (
        b"library: l\nfiles:\n a\n  \x0c\n b\n",
        "l: a.dylan b.dylan",
    ),
    (b"library: l\nfiles:\n\nfiles: b\n", "l:"),
    (b"library: l\r\nfiles: a\r\n b\r\n", "l: a.dylan b.dylan"),
    (b"library: l\nfiles: a b\n", "l: a b.dylan"),
    (
        b"library: l\nfiles: .dylan\n x.DYLAN\n",
        "l: .dylan x.DYLAN.dylan",
    ),
    (b"library: l\nmodule: a\nmodule: b\nfiles: a", "l: a.dylan"),
    (b"library: l\n l2\nfiles: a", "l\\0a l2: a.dylan"),
    (b"library: l\n", "BadHeader @0"),
    (b"files: a\n", "BadHeader @0"),
    (b"library: l\nfiles: a\nfiles: b\n", "BadHeader @20"),
    (b"library: l\nfiles: a\nlibrary: l\n", "BadHeader @20"),
    (b"library: l\nfiles: a\n \xe4\n", "BadHeader @20"),
    (b"library: l\nfiles: a\x7fb\n", "BadHeader @11"),
    (b"library: l\nfiles: a\tb\n", "BadHeader @11"),
    (b"library: l\nbad\nfiles: a\n", "BadHeader @11"),
];

fn bodies_hold(rt: &(impl Abort + AllocGlobal), rows: &[(&[u8], &str)]) -> Result<(), Fail> {
    for (body, wanted) in rows {
        let got = body_shown(rt.alloc(), body)?;
        assert!(rt; got.as_str() == *wanted, "{body:?} gave {got}");
    }
    Ok(())
}

#[test]
fn names(rt: HostRuntime) -> Result<(), Fail> {
    bodies_hold(&rt, &NAMES)
}

#[test]
fn symbols(rt: HostRuntime) -> Result<(), Fail> {
    bodies_hold(&rt, &SYMBOLS)
}

#[test]
fn integers(rt: HostRuntime) -> Result<(), Fail> {
    bodies_hold(&rt, &INTEGERS)
}

#[test]
fn characters(rt: HostRuntime) -> Result<(), Fail> {
    bodies_hold(&rt, &CHARACTERS)
}

#[test]
fn strings(rt: HostRuntime) -> Result<(), Fail> {
    bodies_hold(&rt, &STRINGS)
}

#[test]
fn marks(rt: HostRuntime) -> Result<(), Fail> {
    bodies_hold(&rt, &MARKS)
}

#[test]
fn signs(rt: HostRuntime) -> Result<(), Fail> {
    bodies_hold(&rt, &SIGNS)
}

#[test]
fn blanks(rt: HostRuntime) -> Result<(), Fail> {
    bodies_hold(&rt, &BLANKS)
}

#[test]
fn headers(rt: HostRuntime) -> Result<(), Fail> {
    for (text, wanted) in &SOURCES {
        let got = shown(rt.alloc(), text, 0)?;
        assert!(rt; got.as_str() == *wanted, "{text:?} gave {got}");
    }
    for (text, wanted) in &LIDS {
        let got = lid_shown(rt.alloc(), text)?;
        assert!(rt; got.as_str() == *wanted, "{text:?} gave {got}");
    }
    Ok(())
}
