use outside::{Call, Fail, Failed, Files, MemFiles, names_differ, read_buffer};
use std::alloc::{AllocError, Global};
use std::process::Abort;
use std::test;

// What the file "a" holds: 24 bytes.
const LETTERS: &[u8; 24] = b"abcdefghijklmnopqrstuvwx";

fn letters(alloc: Global) -> Result<Vec<(String, Vec<u8>)>, AllocError> {
    let name = String::from_str(alloc, "a")?;
    let bytes = LETTERS.to_vec(alloc)?;
    Ok(vec![in alloc; (name, bytes)]?)
}

// That file, twelve bytes a call, and the calls that are to fail.
fn letter_files(rt: &impl Abort, alloc: Global, fails: Vec<Fail>) -> Result<MemFiles, test::Fail> {
    let given = letters(alloc)?;
    assert!(rt; names_differ(given.as_slice()));
    Ok(MemFiles::make(alloc, given, 12, fails)?)
}

fn has_bytes(files: &MemFiles, name: &str, bytes: &[u8]) -> bool {
    match files.file(name) {
        Some(found) => found == bytes,
        None => false,
    }
}

// Begins the file and writes to it twice.
fn begin_and_write<F: Files>(
    files: &mut F,
    name: &str,
    first: &[u8],
    then: &[u8],
) -> Result<(Result<usize, Failed>, Result<usize, Failed>), Failed> {
    files.begin(name)?;
    let wrote = files.write(name, first);
    Ok((wrote, files.write(name, then)))
}

// A read from a place on, and what it gives.
#[derive(Clone, Copy)]
struct Reading {
    at: u64,
    room: usize,
    count: usize,
    first: u8,
}

#[test]
fn reads_in_pieces(rt: HostRuntime) -> Result<(), test::Fail> {
    let mut files = letter_files(&rt, rt.alloc(), Vec::new(rt.alloc()))?;
    let rows = [
        Reading {
            at: 0,
            room: 16,
            count: 12,
            first: b'a',
        },
        Reading {
            at: 12,
            room: 16,
            count: 12,
            first: b'm',
        },
        Reading {
            at: 20,
            room: 16,
            count: 4,
            first: b'u',
        },
        Reading {
            at: 3,
            room: 2,
            count: 2,
            first: b'd',
        },
        Reading {
            at: 24,
            room: 16,
            count: 0,
            first: b'.',
        },
        Reading {
            at: 30,
            room: 16,
            count: 0,
            first: b'.',
        },
        Reading {
            at: 0,
            room: 0,
            count: 0,
            first: b'.',
        },
    ];
    for Reading {
        at,
        room,
        count,
        first,
    } in rows {
        let mut buf = [b'.'; 16];
        assert!(rt; room <= 16);
        assert_eq!(rt; files.read("a", at, &mut buf[..room]), Ok(count), "at {at}");
        assert_eq!(rt; buf[0], first, "at {at}");
    }
    assert_eq!(rt; files.read("b", 0, &mut [0; 4]), Err(Failed));
    let mut buf = read_buffer(rt.alloc())?;
    assert_eq!(rt; files.read("a", 0, buf.as_mut_slice()), Ok(12));
    Ok(())
}

#[test]
fn writes_in_pieces(rt: HostRuntime) -> Result<(), test::Fail> {
    let mut files = letter_files(&rt, rt.alloc(), Vec::new(rt.alloc()))?;
    let wrote = begin_and_write(&mut files, "b", LETTERS, b"mnopqrstuvwx")?;
    assert_eq!(rt; wrote, (Ok(12), Ok(12)));
    assert!(rt; has_bytes(&files, "b", LETTERS.as_slice()));
    let again = begin_and_write(&mut files, "b", b"xy", b"")?;
    assert_eq!(rt; again, (Ok(2), Ok(0)));
    assert!(rt; has_bytes(&files, "b", b"xy".as_slice()));
    assert!(rt; has_bytes(&files, "a", LETTERS.as_slice()));
    assert!(rt; files.file("c").is_none());
    Ok(())
}

#[test]
fn prints_in_pieces(rt: HostRuntime) -> Result<(), test::Fail> {
    let mut files = letter_files(&rt, rt.alloc(), Vec::new(rt.alloc()))?;
    assert_eq!(rt; files.out(LETTERS), Ok(12));
    assert_eq!(rt; files.err(b"no"), Ok(2));
    assert_eq!(rt; files.out_text(), b"abcdefghijkl".as_slice());
    assert_eq!(rt; files.err_text(), b"no".as_slice());
    Ok(())
}

#[test]
fn fails_the_named_calls(rt: HostRuntime) -> Result<(), test::Fail> {
    let fails = vec![in rt.alloc();
        Fail {
            call: Call::Read,
            number: 2
        },
        Fail {
            call: Call::Begin,
            number: 1
        },
        Fail {
            call: Call::Write,
            number: 1
        },
        Fail {
            call: Call::Out,
            number: 1
        },
        Fail {
            call: Call::Err,
            number: 2
        },
    ]?;
    let mut files = letter_files(&rt, rt.alloc(), fails)?;
    for read in [Ok(2), Err(Failed), Ok(2)] {
        assert_eq!(rt; files.read("a", 0, &mut [0; 2]), read);
    }
    for print in [(Err(Failed), Ok(1)), (Ok(1), Err(Failed)), (Ok(1), Ok(1))] {
        assert_eq!(rt; (files.out(b"o"), files.err(b"e")), print);
    }
    assert_eq!(rt; files.begin("a"), Err(Failed));
    assert!(rt; has_bytes(&files, "a", LETTERS.as_slice()));
    let wrote = begin_and_write(&mut files, "a", b"xy", b"z")?;
    assert_eq!(rt; wrote, (Err(Failed), Ok(1)));
    assert!(rt; has_bytes(&files, "a", b"z".as_slice()));
    assert_eq!(rt; files.out_text(), b"oo".as_slice());
    assert_eq!(rt; files.err_text(), b"ee".as_slice());
    Ok(())
}

#[test]
fn tells_names_apart(rt: HostRuntime) -> Result<(), test::Fail> {
    let mut given = letters(rt.alloc())?;
    given.push((String::from_str(rt.alloc(), "b")?, Vec::new(rt.alloc())))?;
    assert!(rt; names_differ(given.as_slice()));
    given.push((String::from_str(rt.alloc(), "a")?, Vec::new(rt.alloc())))?;
    assert!(rt; !names_differ(given.as_slice()));
    Ok(())
}
