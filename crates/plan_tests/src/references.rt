use output_queued::{Coming, Reference, reference_text};
use rotating_pick::Kind;
use slot_match::{Match, Row};
use std::process::Abort;
use std::test::Fail;

const PACKET: Coming = Coming {
    slot: 0,
    cells: 2,
    fan: 1,
    level: 0,
};

// Notes a slot, which the reference may; it may not note one without rows.
fn note(rt: &impl Abort, reference: &mut Reference, rows: &[Row], matched: &Match) {
    assert!(rt; !reference.may_note(&[], matched));
    assert!(rt; reference.may_note(rows, matched));
    reference.note(rows, matched);
}

// A packet of two cells comes to a switch of one port in slot 0, and slots 0 and 1 serve it.
#[test]
fn reference_notes_what_it_may(rt: HostRuntime) -> Result<(), Fail> {
    let packets = vec![in rt.alloc(); PACKET]?;
    let coming = vec![in rt.alloc(); packets]?;
    assert!(rt; Reference::may_make(1, 2, &coming));
    let mut reference = Reference::make(rt.alloc(), 1, 2, coming)?;
    let mut row = Row::empty();
    row.uni[0] = 1;
    let mut matched = Match::new(1);
    assert!(rt; matched.may_add(0, 1, 0, Kind::Uni));
    matched.add(0, 1, 0, Kind::Uni);
    for _ in 0..2 {
        note(&rt, &mut reference, &[row], &matched);
    }
    assert!(rt; reference.ports() == 1);
    let text = reference_text(rt.alloc(), &[reference.line(0)])?;
    assert_eq!(rt; text.as_str(), "reference 0 ends 2 runs 2 lead 0 extra 0\n");
    Ok(())
}
