use rotating_pick::{
    Ports, all, contains, difference, intersection, is_empty, is_subset, only, union, with, without,
};

#[test]
fn sets_have_their_members(rt: HostRuntime) {
    let (some, others): (Ports, Ports) = (0b01010, 0b00110);
    let sets = [
        all(5),
        with(some, 0),
        without(some, 3),
        union(some, others),
        intersection(some, others),
        difference(some, others),
    ];
    assert_eq!(rt;
        sets,
        [0b11111, 0b01011, 0b00010, 0b01110, 0b00010, 0b01000]
    );
    assert!(rt; contains(some, 3) && is_empty(0));
    assert!(rt; is_subset(0b00010, some) && !is_subset(others, some));
    assert_eq!(rt;
        [only(1 << 63), only(some), only(0)],
        [Some(63), None, None]
    );
}
