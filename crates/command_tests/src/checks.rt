use job_files::{CheckEnding, check_file};
use outside::{Call, Fail, MemFiles, names_differ};
use scheduler_names::SchedulerName;
use std::test;

// Two ports and one slot, in which nothing is posted.
const ONE_SLOT: [u8; 20] = [
    0x54, 0x54, 0x4a, 0x31, 2, 4, 0, 0, 0, 0, 0, 1, 0, 0, 0, 0, 0xff, 0, 0xff, 0,
];

// A file that is not there is not read. Of the answer to one that is there seven bytes are printed, and the second call
// fails.
#[test]
fn refused_calls_end_it(rt: HostRuntime) -> Result<(), test::Fail> {
    let name = String::from_str(rt.alloc(), "journal")?;
    let given = vec![in rt.alloc(); (name, ONE_SLOT.to_vec(rt.alloc())?)]?;
    assert!(rt; names_differ(given.as_slice()));
    let fail = Fail {
        call: Call::Out,
        number: 2,
    };
    let fails = vec![in rt.alloc(); fail]?;
    let mut files = MemFiles::make(rt.alloc(), given, 7, fails)?;
    for (file, ending, out) in [
        ("another", CheckEnding::ReadFault, b"".as_slice()),
        ("journal", CheckEnding::OutFault, b"yes\nslo"),
    ] {
        let ended = check_file(rt.alloc(), file, SchedulerName::Islip, &mut files);
        assert_eq!(rt; ended, ending, "{file}");
        assert_eq!(rt; files.out_text(), out, "{file}");
    }
    Ok(())
}
