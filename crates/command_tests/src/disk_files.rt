use outside::{DiskFiles, Failed, Files};
use std::path::PathBuf;
use std::test::Fail;
use std::{env, fs, io, process};

// A path for a file of this test alone.
fn path_of(rt: &HostRuntime, file: &str) -> io::Result<PathBuf> {
    let name = format!(in rt.alloc(); "outside-{}-{file}", process::id(rt.process()))?;
    Ok(env::temp_dir(rt)?.join(rt.alloc(), name.as_str())?)
}

// Whether the bytes from a place on, as many as are asked for at once, are these.
fn reads<F: Files>(files: &mut F, name: &str, at: u64, bytes: &[u8]) -> bool {
    let mut buf = [0; 4];
    match files.read(name, at, &mut buf) {
        Ok(count) if count <= 4 => &buf[..count] == bytes,
        _ => false,
    }
}

#[test]
fn keeps_two_files_apart(rt: HostRuntime) -> Result<(), Fail> {
    let first = path_of(&rt, "first")?;
    let second = path_of(&rt, "second")?;
    let (first, second) = (first.as_str(), second.as_str());
    let mut files = DiskFiles::make(&rt);
    assert_eq!(rt; files.read(first, 0, &mut [0; 4]), Err(Failed));

    // The file that was begun last is not the one that is written.
    files.begin(first)?;
    files.begin(second)?;
    assert_eq!(rt; files.write(first, b"one "), Ok(4));
    assert_eq!(rt; files.write(second, b"other"), Ok(5));
    assert_eq!(rt; files.write(first, b"two"), Ok(3));

    // Places in order, back and forth, and in one file after the other.
    for (name, at, bytes) in [
        (first, 0, b"one ".as_slice()),
        (first, 4, b"two"),
        (first, 7, b""),
        (first, 2, b"e tw"),
        (second, 2, b"her"),
        (first, 5, b"wo"),
        (second, 1, b"ther"),
        (second, 5, b""),
        (first, 1, b"ne t"),
        (first, 1, b"ne t"),
        (first, 9, b""),
    ] {
        assert!(rt; reads(&mut files, name, at, bytes), "{name} at {at}");
    }

    // What a file held is gone where it is begun again, as often as that is.
    files.begin(first)?;
    assert!(rt; reads(&mut files, first, 0, b""));
    files.begin(first)?;
    assert_eq!(rt; files.write(first, b"six"), Ok(3));
    assert!(rt; reads(&mut files, first, 0, b"six"));
    assert!(rt; reads(&mut files, second, 1, b"ther"));
    fs::remove_file(&rt, first)?;
    fs::remove_file(&rt, second)?;
    Ok(())
}

#[test]
fn prints_bytes(rt: HostRuntime) {
    let mut files = DiskFiles::make(&rt);
    assert_eq!(rt; files.out(b"out\n"), Ok(4));
    assert_eq!(rt; files.err(b"err \xff\n"), Ok(6));
}
