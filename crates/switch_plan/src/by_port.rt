//! A call for each port's capture.

ghost use Rattle.std.specs.Prelude.{◌≡◌, IfOk, vec_len};
ghost use Rattle.std.specs.Fork.{AcceptsJobs, GivesJobs};

use std::alloc::{AllocError, Global};
use std::thread;
use std::thread::Threads;

/// The most bytes of a small capture. To read and plan these takes about as long as to start and end two threads, some
/// 120 microseconds; a capture that is larger gains time on threads of its own.
pub(crate) const SMALL_CAPTURE: usize = 64 * 1024;

/// What `f` gives at each port's job, in order: on this thread where the captures are small, and otherwise each in a
/// thread of its own where one can be made. The only error is out of memory.
pub(crate) fn map_ports<R: Threads + Sync, J: Send + Drop, X: Send + Drop, F: Fn(J) -> X + Sync>(
    rt: &R,
    alloc: Global,
    small: bool,
    jobs: Vec<J>,
    f: &F,
) -> Result<Vec<X>, AllocError>
    requires { AcceptsJobs F.Fn f.now jobs.items }
    ensures len { IfOk result (λ answers. vec_len answers ≡ vec_len jobs) }
    ensures each { IfOk result (λ answers. GivesJobs F.Fn f.now jobs.items answers.items) }
{
    if small {
        map_in_turn(alloc, jobs, f)
    } else {
        thread::map_vec(rt, jobs, f)
    }
}

// What `thread::map_vec` gives, made on this thread.
fn map_in_turn<J: Drop, X: Drop, F: Fn(J) -> X>(
    alloc: Global,
    jobs: Vec<J>,
    f: &F,
) -> Result<Vec<X>, AllocError>
    requires { AcceptsJobs F.Fn f.now jobs.items }
    ensures len { IfOk result (λ answers. vec_len answers ≡ vec_len jobs) }
    ensures each { IfOk result (λ answers. GivesJobs F.Fn f.now jobs.items answers.items) }
{
    let mut answers = Vec::new(alloc);
    for job in jobs {
        answers.push(f(job))?;
    }
    Ok(answers)
}
