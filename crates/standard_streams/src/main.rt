//! Prints a line to standard output and one to standard error, through the files of the system. Its run
//! shows that each goes where it should, which no contract tells.
#![tactic(auto)]

use outside::{DiskFiles, Failed, Files};
use std::process::ExitCode;

fn print_both<F: Files>(files: &mut F) -> Result<(), Failed> {
    files.out(b"to standard output\n")?;
    files.err(b"to standard error\n")?;
    Ok(())
}

fn main(rt: HostRuntime) -> ExitCode {
    match print_both(&mut DiskFiles::make(&rt)) {
        Ok(()) => ExitCode::SUCCESS,
        Err(_) => ExitCode::FAILURE,
    }
}
