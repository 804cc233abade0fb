use dy_base::{ClassId, ClassOrder, NameList, NameTable, Ref};
use std::test::Fail;

fn class(row: u32) -> ClassId {
    ClassId(Ref { library: 0, row })
}

#[test]
fn a_table_of_more_names_than_are_hashed(rt: HostRuntime) -> Result<(), Fail> {
    let alloc = rt.alloc();
    let mut table = NameTable::new(alloc);
    for number in 0..1_100u32 {
        table.set(alloc, number.to_be_bytes().as_slice(), number)?;
    }
    table.set(alloc, 7u32.to_be_bytes().as_slice(), 70)?;
    table.set(alloc, 1_099u32.to_be_bytes().as_slice(), 71)?;
    assert_eq!(rt; table.get(6u32.to_be_bytes().as_slice()).copied(), Some(6));
    assert_eq!(rt; table.get(7u32.to_be_bytes().as_slice()).copied(), Some(70));
    assert_eq!(rt;
        table.get(1_098u32.to_be_bytes().as_slice()).copied(),
        Some(1_098)
    );
    assert_eq!(rt;
        table.get(1_099u32.to_be_bytes().as_slice()).copied(),
        Some(71)
    );
    assert!(rt; table.get(b"pear".as_slice()).is_none());
    Ok(())
}

#[test]
fn a_list_of_names(rt: HostRuntime) -> Result<(), Fail> {
    let alloc = rt.alloc();
    let mut list = NameList::new(alloc);
    list.set(alloc, b"pear".as_slice(), 1)?;
    list.set(alloc, b"apple".as_slice(), 2)?;
    list.set(alloc, b"pear".as_slice(), 3)?;
    assert_eq!(rt; list.len(), 2);
    assert_eq!(rt; list.place_of(b"apple".as_slice()), Some(1));
    assert_eq!(rt; list.get(b"pear".as_slice()).copied(), Some(3));
    assert!(rt; list.get(b"plum".as_slice()).is_none());
    assert_eq!(rt; list.at(1).map(|entry| *entry.1), Some(2));
    assert!(rt; list.at(2).is_none());
    let places = list.sorted_places(alloc)?;
    assert_eq!(rt; places.as_slice(), [1, 0].as_slice());
    Ok(())
}

#[test]
fn an_order_of_classes(rt: HostRuntime) -> Result<(), Fail> {
    let alloc = rt.alloc();
    let mut classes = Vec::new(alloc);
    for row in [5, 2, 9, 2] {
        classes.push(class(row))?;
    }
    let order = ClassOrder::from_vec(alloc, classes)?;
    assert_eq!(rt; order.as_slice().len(), 4);
    assert_eq!(rt; order.place_of(class(2)), Some(1));
    assert_eq!(rt; order.place_of(class(9)), Some(2));
    assert_eq!(rt; order.place_of(class(3)), None);
    assert!(rt; order.holds(class(5)));
    assert!(rt; !order.holds(class(6)));
    Ok(())
}
