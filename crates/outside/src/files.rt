ghost use Rattle.std.specs.Prelude.{◌≡◌, ◌≤◌, ◌<◌, ℕ, Option, true, length, IfOk, IfSome, OnErr, OnOk};
ghost use Rattle.outside.specs.Contents.{Contents, GivesPiece, NoneChanged, OnlyRead, after_begin, after_err, after_out, after_write};
ghost use Rattle.outside.specs.Faults.{Place, ReadOf, BeginOf, WriteOf, ToOut, ToErr, NeverFall, NoneRose, OnlyRose, Rose, of_err, of_reads, of_writes};

use std::error::Error;
use std::{fmt, io};

/// A call failed. Its count of faults rose, and the contents stay.
#[derive(Clone, Copy, Debug, PartialEq, Eq, Hash)]
pub struct Failed;

impl fmt::Display for Failed {
    fn fmt<W: fmt::Write>(&self, f: &mut fmt::Formatter<W>) -> fmt::Result {
        f.write_str("the call failed")
    }
}

impl Error for Failed {}

impl From<io::Error> for Failed {
    fn from(_cause: io::Error) -> Failed {
        Failed
    }
}

/// Files, standard output and standard error.
///
/// Each call may fail at any time, and a failure is counted: for each kind of call and each name there
/// is a count of faults, which never falls. A call that goes well raises no count, and one that fails none
/// but of its own side: of reads, of what is written, or of standard error. What the calls gave and took is
/// seen: for each contents that the files may have had at the first call, it is what they hold now, unless a
/// read gave something else.
pub trait Files {
    /// What the files hold now, which names were begun, and what standard output and standard error were given,
    /// by what the calls gave and took, if these were the contents at the first call; None once a read gave
    /// what they do not have.
    ghost seen: { Contents → Self → Option Contents };

    /// How often a call of this kind and name failed.
    ghost faults: { Self → Place → ℕ };

    /// Reads a piece of the named file, from byte `at` on, and answers its length in bytes. Where
    /// `buf` is not empty, 0 comes exactly where `at` is at or past the end. A name that is not
    /// there is a fault.
    fn read(&mut self, name: &str, at: u64, buf: &mut [u8]) -> Result<usize, Failed>
        ensures seen { NoneChanged seen self.old self.new }
        ensures piece { (c : Contents) → IfOk result (λ k. IfSome (seen c self.new) (λ d. GivesPiece (d.file name.now) at (length buf.old) buf.new k)) }
        ensures own { OnlyRead name.now seen self.old self.new }
        ensures room { IfOk result (λ k. k ≤ length buf.old) }
        ensures cause { OnErr result (Rose (faults self.old (ReadOf name.now)) (faults self.new (ReadOf name.now))) }
        ensures no_fault { OnOk result (NoneRose (faults self.old) (faults self.new)) }
        ensures no_others { OnlyRose of_reads (faults self.old) (faults self.new) }
        ensures never_fall { NeverFall (faults self.old) (faults self.new) };

    /// Makes the named file empty and begun, also where it was there.
    fn begin(&mut self, name: &str) -> Result<(), Failed>
        ensures seen { (c : Contents) → seen c self.new ≡ after_begin result name.now (seen c self.old) }
        ensures cause { OnErr result (Rose (faults self.old (BeginOf name.now)) (faults self.new (BeginOf name.now))) }
        ensures no_fault { OnOk result (NoneRose (faults self.old) (faults self.new)) }
        ensures no_others { OnlyRose of_writes (faults self.old) (faults self.new) }
        ensures never_fall { NeverFall (faults self.old) (faults self.new) };

    /// Appends a first part of `bytes` to a file, which must have been begun, and answers its length in
    /// bytes: at least 1 where there are any.
    fn write(&mut self, name: &str, bytes: &[u8]) -> Result<usize, Failed>
        requires begun { (c : Contents) → IfSome (seen c self.old) (λ d. d.begun name.now ≡ true) }
        ensures seen { (c : Contents) → seen c self.new ≡ after_write result name.now bytes.now (seen c self.old) }
        ensures room { IfOk result (λ k. k ≤ length bytes.now) }
        ensures some { IfOk result (λ k. 0 < length bytes.now → 0 < k) }
        ensures cause { OnErr result (Rose (faults self.old (WriteOf name.now)) (faults self.new (WriteOf name.now))) }
        ensures no_fault { OnOk result (NoneRose (faults self.old) (faults self.new)) }
        ensures no_others { OnlyRose of_writes (faults self.old) (faults self.new) }
        ensures never_fall { NeverFall (faults self.old) (faults self.new) };

    /// Gives a first part of `bytes` to standard output, and answers its length in bytes: at least 1
    /// where there are any.
    fn out(&mut self, bytes: &[u8]) -> Result<usize, Failed>
        ensures seen { (c : Contents) → seen c self.new ≡ after_out result bytes.now (seen c self.old) }
        ensures room { IfOk result (λ k. k ≤ length bytes.now) }
        ensures some { IfOk result (λ k. 0 < length bytes.now → 0 < k) }
        ensures cause { OnErr result (Rose (faults self.old ToOut) (faults self.new ToOut)) }
        ensures no_fault { OnOk result (NoneRose (faults self.old) (faults self.new)) }
        ensures no_others { OnlyRose of_writes (faults self.old) (faults self.new) }
        ensures never_fall { NeverFall (faults self.old) (faults self.new) };

    /// Gives a first part of `bytes` to standard error, and answers its length in bytes: at least 1
    /// where there are any.
    fn err(&mut self, bytes: &[u8]) -> Result<usize, Failed>
        ensures seen { (c : Contents) → seen c self.new ≡ after_err result bytes.now (seen c self.old) }
        ensures room { IfOk result (λ k. k ≤ length bytes.now) }
        ensures some { IfOk result (λ k. 0 < length bytes.now → 0 < k) }
        ensures cause { OnErr result (Rose (faults self.old ToErr) (faults self.new ToErr)) }
        ensures no_fault { OnOk result (NoneRose (faults self.old) (faults self.new)) }
        ensures no_others { OnlyRose of_err (faults self.old) (faults self.new) }
        ensures never_fall { NeverFall (faults self.old) (faults self.new) };
}
