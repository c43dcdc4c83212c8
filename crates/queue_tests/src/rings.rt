use cell_cutter::CellName;
use std::test::Fail;
use voq_banks::CellRing;

// A packet's second and last cell.
const SECOND: CellName = CellName {
    packet: 7,
    number: 1,
    last: true,
};

#[test]
fn cells_leave_in_order(rt: HostRuntime) -> Result<(), Fail> {
    let mut queue = CellRing::make(rt.alloc(), 3, 2)?;
    assert!(rt; queue.first().is_none());
    queue.admit(7, 2, 0x3u64);
    assert_eq!(rt; (queue.cells(), queue.spare()), (2, 1));
    assert!(rt; queue.fits(1) && !queue.fits(2));
    queue.pop();
    let first = queue.first().ok_or("no cell")?;
    assert_eq!(rt; (first.name, first.fan), (SECOND, 0x3));
    assert_eq!(rt; queue.pop().name, SECOND);
    assert_eq!(rt; (queue.cells(), queue.spare()), (0, 1));
    Ok(())
}
