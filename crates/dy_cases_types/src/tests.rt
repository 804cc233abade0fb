use dy_base::{ClassId, ClassOrder, Items, Ref, Text, fold};
use dy_term::{ClassRow, DyType, LibraryRow, Literal, Member, Program, Shape1};
use dy_types::*;
use std::alloc::{AllocError, Global};
use std::test::Fail;

// The superclass of each class of the library `dylan`.
const SUPERS: [u32; 33] = [
    0, 0, 0, 0, 0, 0, 0, 0, 0, 4, 5, 10, 10, 10, 10, 11, 11, 12, 12, 13, 5, 20, 6, 6, 7, 8, 8, 8,
    25, 28, 28, 26, 27,
];

// Which of four classes is above which: above[i][j] says that j is above i.
type Above = [[bool; 4]; 4];

fn class(library: u32, row: u32) -> ClassId {
    ClassId(Ref { library, row })
}

fn row_of(alloc: Global, order: Vec<ClassId>) -> Result<ClassRow, AllocError> {
    Ok(ClassRow {
        name: fold(alloc, b"<c>".as_slice())?,
        supers: Items::new(alloc),
        order: ClassOrder::from_vec(alloc, order)?,
        is_open: false,
        is_abstract: false,
        is_primary: false,
        slots: Items::new(alloc),
    })
}

fn built_in_row(alloc: Global, row: u32) -> Result<ClassRow, AllocError> {
    let mut order = Vec::new(alloc);
    let mut at = row;
    for _ in 0..6 {
        order.push(class(0, at))?;
        if at == 0 {
            break;
        }
        at = SUPERS.get(at as usize).copied().unwrap_or(0);
    }
    row_of(alloc, order)
}

fn is_above(above: &Above, lower: u32, upper: u32) -> bool {
    match above.get(lower as usize) {
        Some(uppers) => uppers.get(upper as usize).copied().unwrap_or(false),
        None => false,
    }
}

fn own_row(alloc: Global, above: &Above, row: u32) -> Result<ClassRow, AllocError> {
    let mut order = Vec::new(alloc);
    order.push(class(1, row))?;
    for upper in [3, 2, 1, 0] {
        if is_above(above, row, upper) {
            order.push(class(1, upper))?;
        }
    }
    order.push(class(0, 0))?;
    row_of(alloc, order)
}

fn library(alloc: Global, classes: Vec<ClassRow>) -> Result<LibraryRow, AllocError> {
    Ok(LibraryRow {
        name: fold(alloc, b"library".as_slice())?,
        uses: Items::new(alloc),
        classes: Items::from_vec(classes),
        generics: Items::new(alloc),
        methods: Items::new(alloc),
        domains: Items::new(alloc),
        variables: Items::new(alloc),
        tops: Items::new(alloc),
    })
}

// The library `dylan`, and one of four classes.
fn program(alloc: Global, above: &Above) -> Result<Program, AllocError> {
    let mut built_in = Vec::new(alloc);
    for row in 0..33 {
        built_in.push(built_in_row(alloc, row)?)?;
    }
    let mut own = Vec::new(alloc);
    for row in 0..4 {
        own.push(own_row(alloc, above, row)?)?;
    }
    let mut libraries = Vec::new(alloc);
    libraries.push(library(alloc, built_in)?)?;
    libraries.push(library(alloc, own)?)?;
    Ok(Program {
        libraries: Items::from_vec(libraries),
    })
}

fn text(alloc: Global, letter: u8) -> Result<Member, AllocError> {
    Ok(Member::Single(Literal::Str(Text::of(alloc, [letter].as_slice())?)))
}

fn type_of(alloc: Global, member: Member) -> Result<DyType, AllocError> {
    let mut members = Vec::new(alloc);
    members.push(member)?;
    Ok(DyType {
        members: Items::from_vec(members),
    })
}

// The second class of four is below the first, and the last below the second and the third.
const DIAMOND: Above = [
    [false, false, false, false],
    [true, false, false, false],
    [false, false, false, false],
    [true, true, true, false],
];

// The members of the table, in its order.
fn member(alloc: Global, number: usize) -> Result<Member, AllocError> {
    match number {
        0 => Ok(Member::Class(class(0, 0))),
        1 => Ok(Member::Class(class(0, 9))),
        2 => Ok(Member::Class(class(0, 19))),
        3 => Ok(Member::Class(class(0, 24))),
        4 => Ok(Member::Class(class(1, 0))),
        5 => Ok(Member::Class(class(1, 1))),
        6 => Ok(Member::Class(class(1, 2))),
        7 => Ok(Member::Class(class(1, 3))),
        8 => Ok(Member::Single(Literal::Int(5))),
        9 => text(alloc, b'a'),
        10 => Ok(Member::Single(Literal::Bool(true))),
        11 => Ok(Member::SingleClass(class(1, 0))),
        12 => Ok(Member::SingleClass(class(1, 1))),
        13 => Ok(Member::Range(1, 5)),
        14 => Ok(Member::Range(5, 5)),
        15 => Ok(Member::Range(6, 9)),
        16 => Ok(Member::Range(i64::MIN, i64::MAX)),
        _ => Ok(Member::Single(Literal::Nil)),
    }
}

// A line for each member and a column for each: b where it is below that one, m where they can only
// meet.
const PAIRS: [&str; 18] = [
    "bmmmmmmmmmmmmmmmmm",
    "bb------m----mmmm-",
    "b-b------m--------",
    "b--b-------mm-----",
    "b---bmmm----------",
    "b---bbmm----------",
    "b---mmbm----------",
    "b---bbbb----------",
    "bb------b----bb-b-",
    "b-b------b--------",
    "b---------b-------",
    "b--b-------b------",
    "b--b--------b-----",
    "bb------m----bm-b-",
    "bb------b----bb-b-",
    "bb-------------bb-",
    "bb------m----mmmb-",
    "b----------------b",
];

#[test]
fn pairs_of_members(rt: HostRuntime) -> Result<(), Fail> {
    let alloc = rt.alloc();
    let program = program(alloc, &DIAMOND)?;
    for (row, line) in PAIRS.iter().enumerate() {
        let first = type_of(alloc, member(alloc, row)?)?;
        for (column, sign) in line.bytes().enumerate() {
            let second = type_of(alloc, member(alloc, column)?)?;
            let is_below = subtype(&program, &first, &second);
            let can_meet = meet(&program, &first, &second);
            assert_eq!(rt; (row, column, is_below), (row, column, sign == b'b'));
            assert_eq!(rt; (row, column, can_meet), (row, column, sign != b'-'));
        }
    }
    Ok(())
}

// What dispatch sees of a number, a string, `#t`, the first class, an object of the last one,
// `#()`.
fn argument(number: usize) -> Shape1 {
    match number {
        0 => Shape1 {
            class: class(0, 9),
            single: Some(Member::Single(Literal::Int(5))),
        },
        1 => Shape1 {
            class: class(0, 19),
            single: None,
        },
        2 => Shape1 {
            class: class(0, 1),
            single: Some(Member::Single(Literal::Bool(true))),
        },
        3 => Shape1 {
            class: class(0, 24),
            single: Some(Member::SingleClass(class(1, 0))),
        },
        4 => Shape1 {
            class: class(1, 3),
            single: None,
        },
        _ => Shape1 {
            class: class(0, 16),
            single: Some(Member::Single(Literal::Nil)),
        },
    }
}

const INSTANCES: [&str; 6] = [
    "bb------b----bb-b-",
    "b-b---------------",
    "b---------b-------",
    "b--b-------b------",
    "b---bbbb----------",
    "b----------------b",
];

#[test]
fn instances_of_members(rt: HostRuntime) -> Result<(), Fail> {
    let alloc = rt.alloc();
    let program = program(alloc, &DIAMOND)?;
    for (row, line) in INSTANCES.iter().enumerate() {
        let shape = argument(row);
        for (column, sign) in line.bytes().enumerate() {
            let found = instance(&program, &shape, &type_of(alloc, member(alloc, column)?)?);
            assert_eq!(rt; (row, column, found), (row, column, sign == b'b'));
        }
    }
    Ok(())
}

fn union(alloc: Global, first: Member, second: Member) -> Result<DyType, AllocError> {
    let mut members = Vec::new(alloc);
    members.push(first)?;
    members.push(second)?;
    Ok(DyType {
        members: Items::from_vec(members),
    })
}

#[test]
fn unions(rt: HostRuntime) -> Result<(), Fail> {
    let alloc = rt.alloc();
    let program = program(alloc, &DIAMOND)?;
    let lower = union(alloc, Member::Class(class(1, 1)), Member::Range(6, 9))?;
    let upper = union(alloc, Member::Range(0, 9), Member::Class(class(1, 0)))?;
    assert!(rt; subtype(&program, &lower, &upper));
    assert!(rt; !subtype(&program, &upper, &lower));
    assert!(rt; meet(&program, &upper, &lower));
    assert!(rt; instance(&program, &argument(4), &upper));
    assert!(rt; !instance(&program, &argument(0), &lower));
    let nothing = DyType {
        members: Items::new(alloc),
    };
    assert!(rt; subtype(&program, &nothing, &lower));
    assert!(rt; !subtype(&program, &lower, &nothing));
    assert!(rt; !meet(&program, &nothing, &lower));
    Ok(())
}

fn list_of(alloc: Global, number: i64, last: Option<i64>) -> Result<DyType, AllocError> {
    let mut items = Vec::new(alloc);
    items.push(Literal::Int(number))?;
    let literal = dy_term::list_literal(alloc, Items::from_vec(items), last.map(Literal::Int))?;
    type_of(alloc, Member::Single(literal))
}

#[test]
fn lists_as_single_values(rt: HostRuntime) -> Result<(), Fail> {
    let alloc = rt.alloc();
    let program = program(alloc, &DIAMOND)?;
    let proper = list_of(alloc, 1, None)?;
    let dotted = list_of(alloc, 1, Some(2))?;
    assert!(rt; subtype(&program, &proper, &list_of(alloc, 1, None)?));
    assert!(rt; subtype(&program, &dotted, &list_of(alloc, 1, Some(2))?));
    assert!(rt; !subtype(&program, &dotted, &list_of(alloc, 1, Some(3))?));
    assert!(rt; !subtype(&program, &proper, &list_of(alloc, 2, None)?));
    assert!(rt; !subtype(&program, &proper, &dotted));
    Ok(())
}

// An object of the small programs.
#[derive(Clone, Copy)]
enum Object {
    Of(u32),
    Number(i64),
    String,
    Class(u32),
}

const OBJECTS: [Object; 14] = [
    Object::Of(0),
    Object::Of(1),
    Object::Of(2),
    Object::Of(3),
    Object::Number(-2),
    Object::Number(-1),
    Object::Number(0),
    Object::Number(1),
    Object::Number(2),
    Object::String,
    Object::Class(0),
    Object::Class(1),
    Object::Class(2),
    Object::Class(3),
];

fn shape_of(object: Object) -> Shape1 {
    match object {
        Object::Of(row) => Shape1 {
            class: class(1, row),
            single: None,
        },
        Object::Number(number) => Shape1 {
            class: class(0, 9),
            single: Some(Member::Single(Literal::Int(number))),
        },
        Object::String => Shape1 {
            class: class(0, 19),
            single: None,
        },
        Object::Class(row) => Shape1 {
            class: class(0, 24),
            single: Some(Member::SingleClass(class(1, row))),
        },
    }
}

// Whether an object is in the set that a class stands for.
fn is_of(above: &Above, object: Object, class: ClassId) -> bool {
    let row = class.0.row;
    match object {
        _ if class.0.library == 0 && row == 0 => true,
        Object::Of(own) => class.0.library == 1 && (own == row || is_above(above, own, row)),
        Object::Number(_) => class.0.library == 0 && matches!(row, 4 | 9),
        Object::String => class.0.library == 0 && matches!(row, 5 | 10 | 13 | 19),
        Object::Class(_) => class.0.library == 0 && matches!(row, 7 | 24),
    }
}

// Whether an object is in the set that a member stands for.
fn is_in(above: &Above, object: Object, member: &Member) -> bool {
    match member {
        Member::Class(upper) => is_of(above, object, *upper),
        Member::Single(value) => match object {
            Object::Number(number) => matches!(value, Literal::Int(same) if *same == number),
            _ => false,
        },
        Member::SingleClass(single) => match object {
            Object::Class(row) => *single == class(1, row),
            _ => false,
        },
        Member::Range(least, greatest) => match object {
            Object::Number(number) => *least <= number && number <= *greatest,
            _ => false,
        },
    }
}

fn is_in_type(above: &Above, object: Object, of: &DyType) -> bool {
    of.members
        .as_slice()
        .iter()
        .any(|member| is_in(above, object, member))
}

fn drawn(seed: &mut u64, count: u64) -> u64 {
    *seed = seed
        .wrapping_mul(6_364_136_223_846_793_005)
        .wrapping_add(1_442_695_040_888_963_407);
    (*seed >> 33).checked_rem(count).unwrap_or(0)
}

// Four classes, each below some of those before it and below what these are below.
fn drawn_classes(seed: &mut u64) -> Above {
    let mut above = [[false; 4]; 4];
    for lower in 0..4usize {
        for upper in 0..lower {
            if drawn(seed, 3) == 0 {
                above[lower][upper] = true;
                for further in 0..4usize {
                    if above[upper][further] {
                        above[lower][further] = true;
                    }
                }
            }
        }
    }
    above
}

fn drawn_class(seed: &mut u64) -> ClassId {
    match drawn(seed, 8) {
        0 => class(0, 0),
        1 => class(0, 4),
        2 => class(0, 9),
        3 => class(0, 13),
        4 => class(0, 19),
        5 => class(0, 24),
        _ => class(1, drawn(seed, 4).min(3) as u32),
    }
}

fn drawn_number(seed: &mut u64) -> i64 {
    match drawn(seed, 5) {
        0 => -2,
        1 => -1,
        2 => 0,
        3 => 1,
        _ => 2,
    }
}

fn drawn_member(alloc: Global, seed: &mut u64) -> Result<Member, AllocError> {
    match drawn(seed, 8) {
        0 => Ok(Member::Single(Literal::Int(drawn_number(seed)))),
        1 => text(alloc, b'a'),
        2 => text(alloc, b'b'),
        3 => Ok(Member::SingleClass(class(1, drawn(seed, 4).min(3) as u32))),
        4 => {
            let (first, second) = (drawn_number(seed), drawn_number(seed));
            Ok(Member::Range(first.min(second), first.max(second)))
        }
        _ => Ok(Member::Class(drawn_class(seed))),
    }
}

fn drawn_type(alloc: Global, seed: &mut u64) -> Result<DyType, AllocError> {
    let mut members = Vec::new(alloc);
    for _ in 0..1 + drawn(seed, 3).min(2) {
        members.push(drawn_member(alloc, seed)?)?;
    }
    Ok(DyType {
        members: Items::from_vec(members),
    })
}

// No object is told to be where it is not, and none that is in the first type alone or in both
// refutes what is told of the two.
fn agree(program: &Program, above: &Above, first: &DyType, second: &DyType) -> bool {
    let is_below = subtype(program, first, second);
    let can_meet = meet(program, first, second);
    OBJECTS.iter().all(|object| {
        let in_first = is_in_type(above, *object, first);
        let in_second = is_in_type(above, *object, second);
        in_first == instance(program, &shape_of(*object), first)
            && (!is_below || !in_first || in_second)
            && (can_meet || !in_first || !in_second)
    })
}

#[test]
fn types_as_sets_of_objects(rt: HostRuntime) -> Result<(), Fail> {
    let alloc = rt.alloc();
    let mut seed = 1;
    for round in 0..60 {
        let above = drawn_classes(&mut seed);
        let program = program(alloc, &above)?;
        for _ in 0..40 {
            let first = drawn_type(alloc, &mut seed)?;
            let second = drawn_type(alloc, &mut seed)?;
            let as_sets = agree(&program, &above, &first, &second);
            assert_eq!(rt; (round, as_sets), (round, true));
        }
    }
    Ok(())
}
