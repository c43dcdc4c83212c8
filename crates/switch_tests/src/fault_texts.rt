use forward_table::TableFault;
use journal_check::JournalFault;
use line_pace::PaceFault;
use outside::Failed;
use pcap_records::PcapFault;
use rotating_pick::OutOfMemory;
use std::alloc::{AllocError, Global};
use std::fmt::Display;
use switch_plan::PlanFault;

// Whether this is what a fault prints.
fn prints(alloc: Global, fault: &impl Display, text: &str) -> Result<bool, AllocError> {
    Ok(format!(in alloc; "{fault}")?.as_str() == text)
}

#[test]
fn refusals_of_a_plan_say_what_is_wrong(rt: HostRuntime) -> Result<(), AllocError> {
    let rows = [
        (
            PlanFault::Table(TableFault::BadLine { line: 3 }),
            "table line 3: bad line",
        ),
        (
            PlanFault::Capture {
                port: 2,
                fault: PcapFault::CutRecord { at: 24 },
            },
            "capture 2: cut record at 24",
        ),
        (
            PlanFault::MixedLink {
                first: 1,
                other: 101,
            },
            "link types 1 and 101",
        ),
        (
            PlanFault::TooManySlots {
                port: 1,
                slots: 131_073,
            },
            "too many slots: port 1 has 131073",
        ),
        (
            PlanFault::TooManyCells { cells: 131_073 },
            "too many cells: 131073",
        ),
        (PlanFault::OutOfMemory, "out of memory"),
    ];
    for (fault, text) in &rows {
        assert!(rt; prints(rt.alloc(), fault, text)?, "{text}");
    }
    Ok(())
}

#[test]
fn other_faults_say_what_is_wrong(rt: HostRuntime) -> Result<(), AllocError> {
    let alloc = rt.alloc();
    let slots = 131_073;
    assert!(rt;
        prints(
            alloc,
            &PaceFault::TooLong { slots },
            "too many arrival slots: 131073"
        )?
    );
    assert!(rt; prints(alloc, &PaceFault::OutOfMemory, "out of memory")?);
    assert!(rt; prints(alloc, &JournalFault::Bad { at: 12 }, "bad at 12")?);
    assert!(rt; prints(alloc, &JournalFault::OutOfMemory, "out of memory")?);
    assert!(rt; prints(alloc, &Failed, "the call failed")?);
    assert!(rt; prints(alloc, &OutOfMemory, "out of memory")?);
    Ok(())
}
