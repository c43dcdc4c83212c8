use std::test::Fail;
use switch_words::WordsFault;

#[test]
fn says_what_is_wrong(rt: HostRuntime) -> Result<(), Fail> {
    let rows = [
        (WordsFault::Usage, "usage"),
        (WordsFault::OutOfMemory, "out of memory"),
    ];
    for (fault, text) in rows {
        assert_eq!(rt; format!(in rt.alloc(); "{fault}")?.as_str(), text);
    }
    Ok(())
}
