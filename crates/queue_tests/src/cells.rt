use cell_cutter::{Packet, cut};
use rotating_pick::Kind;

#[test]
fn cut_cells_are_of_the_form(rt: HostRuntime) {
    let packet = Packet {
        input: 31,
        level: 2,
        kind: Kind::Multi,
        seconds: 1,
        nanos: 2_000,
        original: 60,
        bytes: &[0x45; 41],
    };
    let first = cut(&packet, 0);
    let second = cut(&packet, 1);
    assert!(rt; first.is_of_form() && second.is_of_form());
    assert!(rt; !first.last && second.last);
}
