use scheduler_names::SchedulerName;

#[test]
fn names_are_read_letter_for_letter(rt: HostRuntime) {
    let names = [
        ("islip", SchedulerName::Islip),
        ("firm", SchedulerName::Firm),
        ("rrm", SchedulerName::Rrm),
    ];
    for (word, name) in names {
        assert_eq!(rt; SchedulerName::named(word), Some(name));
        assert_eq!(rt; name.word(), word);
    }
    for word in ["", "ISLIP", "islip ", "rr", "eslip"] {
        assert_eq!(rt; SchedulerName::named(word), None);
    }
}
