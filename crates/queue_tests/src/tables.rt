use forward_table::TableFault;
use std::test::Fail;

#[test]
fn faults_are_shown(rt: HostRuntime) -> Result<(), Fail> {
    let rows = [
        (TableFault::BadLine { line: 3 }, "table line 3: bad line"),
        (TableFault::HostBits { line: 3 }, "table line 3: host bits"),
        (
            TableFault::BadPort { line: 3, port: 7 },
            "table line 3: port 7",
        ),
        (TableFault::BadLevel { line: 3 }, "table line 3: level"),
        (
            TableFault::Repeated { line: 3, first: 1 },
            "table line 3: repeats line 1",
        ),
        (
            TableFault::TooManyLines { count: 4097 },
            "table: 4097 lines",
        ),
        (TableFault::OutOfMemory, "out of memory"),
    ];
    for (fault, text) in rows {
        assert_eq!(rt; format!(in rt.alloc(); "{fault}")?.as_str(), text);
    }
    Ok(())
}
