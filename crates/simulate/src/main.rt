//! The simulated switch as a command: `simulate [options] SEED SLOTS PORTS`.
#![tactic(auto)]

use outside::DiskFiles;
use simulation_command::simulate_main;
use std::process::ExitCode;
use std::{env, fs, io};

/// The status where the runtime does not give the words.
const NO_WORDS: u8 = 1;

// A folder that is always there. It is open for reading alone, so nothing can be written to it.
const HELD: &str = "/";

// The words after the program's name.
fn words<R: env::Env + AllocGlobal>(rt: &R) -> io::Result<Vec<String>> {
    Ok(env::args(rt)?.skip(1).collect(rt.alloc())?)
}

fn main(rt: HostRuntime) -> ExitCode {
    // The next file to be opened takes the number of a standard stream that is closed, and would be given what
    // the stream is given. So these numbers are taken first, and a call on a closed stream is refused.
    let _held = [
        fs::open(&rt, HELD).ok(),
        fs::open(&rt, HELD).ok(),
        fs::open(&rt, HELD).ok(),
    ];
    let Ok(words) = words(&rt) else {
        return ExitCode::from(NO_WORDS);
    };
    let mut files = DiskFiles::make(&rt);
    ExitCode::from(simulate_main(rt.alloc(), words.as_slice(), &mut files))
}
