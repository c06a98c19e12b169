use crate::PlaceList;

#[test]
fn places_stand_in_order_and_once(rt: HostRuntime) {
    let mut list = PlaceList::new(rt.alloc());
    list.add(7);
    list.add(3);
    list.add(7);
    list.add(9);
    assert!(rt; list.is_complete());
    assert_eq!(rt; list.as_slice(), [3, 7, 9].as_slice());
    assert_eq!(rt; list.since(7), [7, 9].as_slice());
    assert_eq!(rt; list.since(4), [7, 9].as_slice());
    assert!(rt; list.since(10).is_empty());
}

#[test]
fn a_sweep_is_due_where_more_than_half_are_stale(rt: HostRuntime) {
    let mut list = PlaceList::new(rt.alloc());
    list.add(1);
    list.add(2);
    list.add(3);
    assert!(rt; !list.note_stale());
    assert!(rt; list.note_stale());
    list.retain(|place| *place > 2);
    assert_eq!(rt; list.as_slice(), [3].as_slice());
    assert!(rt; list.note_stale());
}
