//! Orders and refusals by examples, and orders by a search of all lists. Expected values come from
//! The Dylan Reference Manual and from the rules of `class_order` and `check_class`.

use dy_base::{ClassId, ClassOrder, Fault, GenericId, Items, Kind, Ref, Refusal, fold};
use dy_classes::*;
use dy_term::{
    ClassRow, DyType, GenericRow, LibraryRow, Params, Program, Results, SlotKind, SlotRow,
};
use std::alloc::{AllocError, Global};
use std::test::Fail;

/// What a test says of a class: its name, its direct superclasses, whether it is primary, and the
/// getters of its slots. A digit is the row of a class or of a generic function.
type Given = (&'static str, &'static str, bool, &'static str);

fn row_of_digit(digit: u8) -> Ref {
    Ref {
        library: 0,
        row: u32::from(digit.saturating_sub(b'0')),
    }
}

fn classes_of(alloc: Global, digits: &str) -> Result<Items<ClassId>, AllocError> {
    let mut classes = Items::new(alloc);
    for digit in digits.as_bytes() {
        classes.push(ClassId(row_of_digit(*digit)))?;
    }
    Ok(classes)
}

fn slots_of(alloc: Global, digits: &str) -> Result<Items<SlotRow>, AllocError> {
    let mut slots = Items::new(alloc);
    for digit in digits.as_bytes() {
        slots.push(SlotRow {
            getter: GenericId(row_of_digit(*digit)),
            setter: None,
            kind: SlotKind::Instance,
            slot_type: DyType {
                members: Items::new(alloc),
            },
            keyword: None,
            required: false,
            init: None,
        })?;
    }
    Ok(slots)
}

fn generic_of(alloc: Global, name: &[u8]) -> Result<GenericRow, AllocError> {
    Ok(GenericRow {
        name: fold(alloc, name)?,
        is_open: false,
        params: Params {
            required: Items::new(alloc),
            rest: false,
            keys: None,
            all_keys: false,
        },
        results: Results {
            required: Items::new(alloc),
            rest: None,
        },
    })
}

fn row_of_given(alloc: Global, given: Given, order: ClassOrder) -> Result<ClassRow, AllocError> {
    Ok(ClassRow {
        name: fold(alloc, given.0.as_bytes())?,
        supers: classes_of(alloc, given.1)?,
        order,
        is_open: false,
        is_abstract: false,
        is_primary: given.2,
        slots: slots_of(alloc, given.3)?,
    })
}

fn program_of(alloc: Global, classes: Items<ClassRow>) -> Result<Program, AllocError> {
    let mut generics = Items::new(alloc);
    for name in [b"size".as_slice(), b"name".as_slice(), b"next".as_slice()] {
        generics.push(generic_of(alloc, name)?)?;
    }
    let mut libraries = Items::new(alloc);
    libraries.push(LibraryRow {
        name: fold(alloc, b"test".as_slice())?,
        uses: Items::new(alloc),
        classes,
        generics,
        methods: Items::new(alloc),
        domains: Items::new(alloc),
        variables: Items::new(alloc),
        tops: Items::new(alloc),
    })?;
    Ok(Program { libraries })
}

/// The program of a table, in which the first classes store the orders that are given as digits.
fn program_with(alloc: Global, table: &[Given], orders: &[Vec<u8>]) -> Result<Program, AllocError> {
    let mut classes = Items::new(alloc);
    for (row, given) in table.iter().enumerate() {
        let digits: &[u8] = match orders.get(row) {
            Some(digits) => digits.as_slice(),
            None => &[],
        };
        let mut order = Vec::new(alloc);
        for digit in digits {
            order.push(ClassId(row_of_digit(*digit)))?;
        }
        classes.push(row_of_given(alloc, *given, ClassOrder::from_vec(alloc, order)?)?)?;
    }
    program_of(alloc, classes)
}

fn digits_of(alloc: Global, classes: &[ClassId]) -> Result<Vec<u8>, AllocError> {
    let mut digits = Vec::new(alloc);
    for class in classes {
        digits.push(b'0'.saturating_add((class.0.row % 10) as u8))?;
    }
    Ok(digits)
}

/// The number of a fault, and what it shows.
fn fault_text(alloc: Global, fault: &Fault) -> Result<Vec<u8>, AllocError> {
    let code = fault.kind.code() % 100;
    let mut text = vec![in alloc; b'0' + code / 10, b'0' + code % 10]?;
    for shown in fault.shown.as_slice() {
        text.push(b' ')?;
        for byte in shown.bytes() {
            text.push(*byte)?;
        }
    }
    Ok(text)
}

fn refusal_text(alloc: Global, refusal: &Refusal) -> Result<Vec<u8>, AllocError> {
    match refusal {
        Refusal::Fault(fault) => fault_text(alloc, fault),
        Refusal::Memory => b"memory".as_slice().to_vec(alloc),
    }
}

/// What is told of the classes of a table, one after another: the first refusal, or else the order
/// of the last class.
fn told(alloc: Global, table: &[Given]) -> Result<Vec<u8>, AllocError> {
    let mut orders = Vec::new(alloc);
    let mut last = Vec::new(alloc);
    for row in 0..table.len() {
        let class = ClassId(Ref {
            library: 0,
            row: (row % 10) as u32,
        });
        match class_order(alloc, &program_with(alloc, table, &orders)?, class) {
            Ok(order) => last = digits_of(alloc, &order)?,
            Err(refusal) => return refusal_text(alloc, &refusal),
        }
        orders.push(last.clone()?)?;
        if let Err(refusal) = check_class(alloc, &program_with(alloc, table, &orders)?, class) {
            return refusal_text(alloc, &refusal);
        }
    }
    Ok(last)
}

/// A class of which only the superclasses matter.
fn plain(name: &'static str, supers: &'static str) -> Given {
    (name, supers, false, "")
}

const OBJECT: Given = ("<object>", "", false, "");

#[test]
fn the_class_with_the_latest_subclass_comes_first(rt: HostRuntime) -> Result<(), Fail> {
    let table = [
        OBJECT,
        plain("<p>", "0"),
        plain("<sm>", "0"),
        plain("<em>", "0"),
        plain("<sp>", "12"),
        plain("<ep>", "13"),
        plain("<esp>", "45"),
    ];
    assert_eq!(rt; told(rt.alloc(), &table)?.as_slice(), b"6451320".as_slice());
    Ok(())
}

#[test]
fn orders_that_contradict_each_other(rt: HostRuntime) -> Result<(), Fail> {
    let table = [
        OBJECT,
        plain("<a>", "0"),
        plain("<b>", "0"),
        plain("<c>", "12"),
        plain("<d>", "21"),
        plain("<e>", "34"),
    ];
    assert_eq!(rt; told(rt.alloc(), &table)?.as_slice(), b"22 <e>".as_slice());
    let doubled = [OBJECT, plain("<a>", "0"), plain("<b>", "11")];
    assert_eq!(rt;
        told(rt.alloc(), &doubled)?.as_slice(),
        b"22 <b>".as_slice()
    );
    let below = [OBJECT, plain("<a>", "0"), plain("<b>", "01")];
    assert_eq!(rt; told(rt.alloc(), &below)?.as_slice(), b"22 <b>".as_slice());
    Ok(())
}

#[test]
fn a_class_above_itself(rt: HostRuntime) -> Result<(), Fail> {
    let ring = [
        OBJECT,
        plain("<a>", "3"),
        plain("<b>", "1"),
        plain("<c>", "2"),
    ];
    assert_eq!(rt; told(rt.alloc(), &ring)?.as_slice(), b"25 <a>".as_slice());
    let own = [OBJECT, plain("<a>", "01")];
    assert_eq!(rt; told(rt.alloc(), &own)?.as_slice(), b"25 <a>".as_slice());
    Ok(())
}

#[test]
fn primary_classes(rt: HostRuntime) -> Result<(), Fail> {
    let unrelated = [
        OBJECT,
        ("<a>", "0", true, ""),
        ("<b>", "0", true, ""),
        plain("<c>", "12"),
    ];
    assert_eq!(rt;
        told(rt.alloc(), &unrelated)?.as_slice(),
        b"23 <c> <a> <b>".as_slice()
    );
    let related = [
        OBJECT,
        ("<a>", "0", true, ""),
        plain("<f>", "0"),
        ("<b>", "1", true, ""),
        ("<c>", "32", true, ""),
    ];
    assert_eq!(rt; told(rt.alloc(), &related)?.as_slice(), b"43120".as_slice());
    Ok(())
}

#[test]
fn slots_of_one_getter(rt: HostRuntime) -> Result<(), Fail> {
    let inherited = [
        OBJECT,
        ("<a>", "0", false, "01"),
        ("<b>", "0", false, "2"),
        ("<c>", "12", false, "1"),
    ];
    assert_eq!(rt;
        told(rt.alloc(), &inherited)?.as_slice(),
        b"24 <c> name".as_slice()
    );
    let own = [OBJECT, ("<a>", "0", false, "02"), ("<b>", "1", false, "11")];
    assert_eq!(rt;
        told(rt.alloc(), &own)?.as_slice(),
        b"24 <b> name".as_slice()
    );
    let by_two_ways = [
        OBJECT,
        ("<a>", "0", false, "0"),
        ("<b>", "1", false, "1"),
        ("<c>", "1", false, "2"),
        plain("<d>", "23"),
    ];
    assert_eq!(rt;
        told(rt.alloc(), &by_two_ways)?.as_slice(),
        b"42310".as_slice()
    );
    Ok(())
}

#[test]
fn unrelated_primary_classes_are_told_before_slots(rt: HostRuntime) -> Result<(), Fail> {
    let both = [
        OBJECT,
        ("<a>", "0", true, "0"),
        ("<b>", "0", true, "0"),
        plain("<c>", "12"),
    ];
    assert_eq!(rt;
        told(rt.alloc(), &both)?.as_slice(),
        b"23 <c> <a> <b>".as_slice()
    );
    Ok(())
}

/// The list of distinct numbers below `count` that a code spells in base 5, where there is one: a
/// digit is one more than its number, and a list has at most four.
fn spelled(alloc: Global, code: u32, count: u32) -> Result<Option<Vec<u32>>, AllocError> {
    let mut numbers: Vec<u32> = Vec::new(alloc);
    let mut rest = code;
    for _place in 0..4 {
        if rest == 0 {
            return Ok(Some(numbers));
        }
        let digit = rest % 5;
        if digit == 0 || digit > count || numbers.contains(&(digit - 1)) {
            return Ok(None);
        }
        numbers.push(digit - 1)?;
        rest /= 5;
    }
    Ok(Some(numbers))
}

/// All lists of distinct numbers below `count`, which is at most 4.
fn sequences(alloc: Global, count: u32) -> Result<Vec<Vec<u32>>, AllocError> {
    let mut lists = Vec::new(alloc);
    for code in 0..625 {
        if let Some(list) = spelled(alloc, code, count)? {
            lists.push(list)?;
        }
    }
    Ok(lists)
}

fn list_of(lists: &[Vec<u32>], at: u32) -> &[u32] {
    match lists.get(at as usize) {
        Some(list) => list.as_slice(),
        None => &[],
    }
}

/// Whether all that stands before a class in a list is listed.
fn is_free_in(list: &[u32], listed: &[u32], class: u32) -> bool {
    let mut blocked = false;
    for other in list {
        if *other == class && blocked {
            return false;
        }
        if !listed.contains(other) {
            blocked = true;
        }
    }
    true
}

/// Whether a class can be next.
fn is_admissible(supers: &[u32], orders: &[Vec<u32>], listed: &[u32], class: u32) -> bool {
    let mut found = supers.contains(&class);
    let mut free = is_free_in(supers, listed, class);
    for above in supers {
        let order = list_of(orders, *above);
        found = found || order.contains(&class);
        free = free && is_free_in(order, listed, class);
    }
    found && free && !listed.contains(&class)
}

/// One more than the last place of a direct subclass in the list so far.
fn latest(all_supers: &[Vec<u32>], listed: &[u32], class: u32) -> usize {
    let mut place = 0;
    for (at, below) in listed.iter().enumerate() {
        if list_of(all_supers, *below).contains(&class) {
            place = at + 1;
        }
    }
    place
}

fn is_within(list: &[u32], whole: &[u32]) -> bool {
    let mut place = 0;
    for item in whole {
        if list.get(place) == Some(item) {
            place += 1;
        }
    }
    place == list.len()
}

/// Whether a list is the order of a class, by the definition.
fn is_order(all_supers: &[Vec<u32>], orders: &[Vec<u32>], class: u32, list: &[u32]) -> bool {
    let supers = list_of(all_supers, class);
    for place in 1..list.len() {
        let (listed, next) = (&list[..place], list[place]);
        if !is_admissible(supers, orders, listed, next) {
            return false;
        }
        for other in 0..5 {
            let is_other = other != next && is_admissible(supers, orders, listed, other);
            if is_other && latest(all_supers, listed, other) >= latest(all_supers, listed, next) {
                return false;
            }
        }
    }
    supers
        .iter()
        .all(|above| is_within(list_of(orders, *above), list))
        && is_within(supers, list)
}

fn ids_of(alloc: Global, rows: &[u32]) -> Result<Vec<ClassId>, AllocError> {
    let mut classes = Vec::new(alloc);
    for row in rows {
        classes.push(ClassId(Ref {
            library: 0,
            row: *row,
        }))?;
    }
    Ok(classes)
}

fn rows_of(alloc: Global, classes: &[ClassId]) -> Result<Vec<u32>, AllocError> {
    let mut rows = Vec::new(alloc);
    for class in classes {
        rows.push(class.0.row)?;
    }
    Ok(rows)
}

/// The program in which the classes have these direct superclasses, and the first of them store
/// these orders.
fn graph_program(
    alloc: Global,
    all_supers: &[Vec<u32>],
    orders: &[Vec<u32>],
) -> Result<Program, AllocError> {
    let mut classes = Items::new(alloc);
    for (row, supers) in all_supers.iter().enumerate() {
        let order: &[u32] = match orders.get(row) {
            Some(order) => order.as_slice(),
            None => &[],
        };
        classes.push(ClassRow {
            name: fold(alloc, b"class".as_slice())?,
            supers: Items::from_vec(ids_of(alloc, supers)?),
            order: ClassOrder::from_vec(alloc, ids_of(alloc, order)?)?,
            is_open: false,
            is_abstract: false,
            is_primary: false,
            slots: Items::new(alloc),
        })?;
    }
    program_of(alloc, classes)
}

/// The one list of those that begin with a class and go on by classes before it which is its order,
/// found by trying them all.
fn searched(
    alloc: Global,
    all_supers: &[Vec<u32>],
    orders: &[Vec<u32>],
    class: u32,
    lists: &[Vec<u32>],
) -> Result<Option<Vec<u32>>, AllocError> {
    for rest in lists {
        let mut list = vec![in alloc; class]?;
        for row in rest {
            list.push(*row)?;
        }
        if is_order(all_supers, orders, class, &list) {
            return Ok(Some(list));
        }
    }
    Ok(None)
}

/// Whether `class_order` gives what the search gives, at each class up to the first without an
/// order.
fn agrees(
    alloc: Global,
    all_supers: &[Vec<u32>],
    lists: &[Vec<Vec<u32>>],
) -> Result<bool, AllocError> {
    let mut orders = Vec::new(alloc);
    for class in 0..5 {
        let candidates: &[Vec<u32>] = match lists.get(class as usize) {
            Some(candidates) => candidates.as_slice(),
            None => &[],
        };
        let program = graph_program(alloc, all_supers, &orders)?;
        let wanted = searched(alloc, all_supers, &orders, class, candidates)?;
        let id = ClassId(Ref {
            library: 0,
            row: class,
        });
        match (class_order(alloc, &program, id), wanted) {
            (Ok(order), Some(list)) => {
                if rows_of(alloc, &order)? != list {
                    return Ok(false);
                }
                orders.push(list)?;
            }
            (Err(Refusal::Fault(fault)), None) => return Ok(fault.kind == Kind::Inconsistent),
            _ => return Ok(false),
        }
    }
    Ok(true)
}

/// The direct superclasses of five classes, by a number below 10,400: one of the 1, 2, 5, 16 and 65
/// lists for each of them.
fn graph(
    alloc: Global,
    lists: &[Vec<Vec<u32>>],
    number: usize,
) -> Result<Vec<Vec<u32>>, AllocError> {
    let mut all_supers = Vec::new(alloc);
    let mut rest = number;
    for choices in lists {
        if choices.len() == 0 {
            return Ok(all_supers);
        }
        let chosen = rest % choices.len();
        rest /= choices.len();
        all_supers.push(choices[chosen].clone()?)?;
    }
    Ok(all_supers)
}

#[test]
fn all_graphs_of_five_classes(rt: HostRuntime) -> Result<(), Fail> {
    let alloc = rt.alloc();
    let mut lists = Vec::new(alloc);
    for count in 0..5 {
        lists.push(sequences(alloc, count)?)?;
    }
    for number in 0..10_400 {
        let all_supers = graph(alloc, &lists, number)?;
        assert!(rt; agrees(alloc, &all_supers, &lists)?);
    }
    Ok(())
}
