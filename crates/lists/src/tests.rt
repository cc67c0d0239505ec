//! A list from its first item to its last place.
use super::FixedList;

#[test]
fn filled(rt: HostRuntime) {
    let mut list: FixedList<u8, 3> = FixedList::new(0);
    assert_eq!(rt; list.as_slice().len(), 0);
    list.push(7);
    let copy = list;
    list.push(8);
    list.set(0, 9);
    assert_eq!(rt; list.as_slice(), [9, 8].as_slice());
    assert_eq!(rt; copy.as_slice(), [7].as_slice());
    let mut other: FixedList<u8, 3> = FixedList::new(5);
    other.push(9);
    assert!(rt; list != other);
    other.push(8);
    assert_eq!(rt; list, other);
}
