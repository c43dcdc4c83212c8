use crate::{VerdictWords, tiny_tera_check_journal};

// Two ports and one slot, in which nothing is posted.
const EMPTY_SLOT: [u8; 20] = [
    0x54, 0x54, 0x4a, 0x31, 2, 4, 0, 0, 0, 0, 0, 1, 0, 0, 0, 0, 0xff, 0, 0xff, 0,
];

// This slot twice: after the first no more is to come.
const AFTER_END: [u8; 28] = [
    0x54, 0x54, 0x4a, 0x31, 2, 4, 0, 0, 0, 0, 0, 2, 0, 0, 0, 0, 0xff, 0, 0xff, 0, 0, 0, 0, 0, 0xff,
    0, 0xff, 0,
];

const NONE: u32 = 0xffff_ffff;

const UNTOLD: VerdictWords = VerdictWords {
    answer: 7,
    number: 7,
    reason: 7,
    port: 7,
    longest: [7; 4],
};

#[test]
fn lawful_journal_is_told(rt: HostRuntime) {
    let mut verdict = UNTOLD;
    assert_eq!(rt;
        tiny_tera_check_journal(rt.alloc(), &EMPTY_SLOT, &mut verdict),
        0
    );
    let wanted = VerdictWords {
        answer: 0,
        number: 1,
        reason: NONE,
        port: NONE,
        longest: [0; 4],
    };
    assert!(rt; verdict == wanted);
}

#[test]
fn slot_after_the_end_is_told(rt: HostRuntime) {
    let mut verdict = UNTOLD;
    assert_eq!(rt;
        tiny_tera_check_journal(rt.alloc(), &AFTER_END, &mut verdict),
        0
    );
    let wanted = VerdictWords {
        answer: 1,
        number: 1,
        reason: 0,
        port: NONE,
        longest: [0; 4],
    };
    assert!(rt; verdict == wanted);
}

#[test]
fn cut_file_is_told(rt: HostRuntime) {
    let mut verdict = UNTOLD;
    assert_eq!(rt;
        tiny_tera_check_journal(rt.alloc(), &EMPTY_SLOT[..3], &mut verdict),
        0
    );
    let wanted = VerdictWords {
        answer: 2,
        number: 0,
        reason: NONE,
        port: NONE,
        longest: [0; 4],
    };
    assert!(rt; verdict == wanted);
}
