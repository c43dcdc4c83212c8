ghost use Rattle.std.specs.Prelude.{◌<◌};

use card_worker::Gate;
use outside::{Fail, MemFiles, names_differ};
use rotating_pick::OutOfMemory;
use std::alloc::{AllocError, Global};
use std::process::Abort;
use std::thread::Threads;
use switch_run::switch_main;

/// Files that are given to a command, by name.
pub(crate) type Given = Vec<(String, Vec<u8>)>;

/// The given files of these names and bytes.
pub(crate) fn given_of(alloc: Global, files: &[(&str, &[u8])]) -> Result<Given, AllocError> {
    let mut given = Vec::new(alloc);
    for (name, bytes) in files {
        give(alloc, &mut given, name, bytes.to_vec(alloc)?)?;
    }
    Ok(given)
}

/// Gives one more file to a command.
pub(crate) fn give(
    alloc: Global,
    given: &mut Given,
    name: &str,
    bytes: Vec<u8>,
) -> Result<(), AllocError> {
    given.push((String::from_str(alloc, name)?, bytes))?;
    Ok(())
}

fn word_list(alloc: Global, words: &[&str]) -> Result<Vec<String>, AllocError> {
    let mut list = Vec::new(alloc);
    for word in words {
        list.push(String::from_str(alloc, word)?)?;
    }
    Ok(list)
}

// The given files, at most `piece` bytes a call, with the calls that are to fail.
fn files_of(
    rt: &impl Abort,
    alloc: Global,
    given: Given,
    piece: u32,
    fails: &[Fail],
) -> Result<MemFiles, OutOfMemory>
    requires { 0 < piece }
{
    assert!(rt; names_differ(given.as_slice()));
    MemFiles::make(alloc, given, piece, fails.to_vec(alloc)?)
}

/// How the calls on files go: the most bytes that one takes or gives, and those that fail.
#[derive(Clone, Copy)]
pub(crate) struct Calls<'a> {
    pub(crate) piece: u32,
    pub(crate) fails: &'a [Fail],
}

/// Runs the command of these words over the given files; answers the files after it, and its status.
pub(crate) fn run<R: Threads + Sync + Abort, G: Gate + Sync>(
    rt: &R,
    alloc: Global,
    words: &[&str],
    given: Given,
    calls: Calls<'_>,
    gate: &G,
) -> Result<(MemFiles, u8), OutOfMemory>
    requires { 0 < calls.piece }
{
    let words = word_list(alloc, words)?;
    let mut files = files_of(rt, alloc, given, calls.piece, calls.fails)?;
    let status = switch_main(rt, alloc, &words, &mut files, gate);
    Ok((files, status))
}

/// What a command is to end with: its status, and what it gives to standard output and to standard error.
#[derive(Clone, Copy)]
pub(crate) struct Told<'a> {
    pub(crate) status: u8,
    pub(crate) out: &'a str,
    pub(crate) err: &'a str,
}

/// Compares how the command of these words ended.
pub(crate) fn compare_told(
    rt: &impl Abort,
    files: &MemFiles,
    status: u8,
    told: Told<'_>,
    words: &[&str],
) {
    compare_text(rt, files.err_text(), told.err, words);
    assert!(rt; status == told.status, "status {status} of {words:?}");
    compare_text(rt, files.out_text(), told.out, words);
}

fn compare_text(rt: &impl Abort, text: &[u8], expected: &str, words: &[&str]) {
    let text = std::str::from_utf8(text).unwrap_or("no text");
    assert!(rt; text == expected, "{text} of {words:?}");
}

/// Compares the bytes of a file: None where there is to be none.
pub(crate) fn compare_file(
    rt: &impl Abort,
    files: &MemFiles,
    name: &str,
    expected: Option<&[u8]>,
    words: &[&str],
) {
    assert!(rt; files.file(name) == expected, "{name} of {words:?}");
}
