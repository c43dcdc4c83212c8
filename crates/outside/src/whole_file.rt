ghost use Rattle.std.specs.Prelude.{◌≡◌, ◌≤◌, ◌<◌, [], Some, true, length, All, IfErr, IfOk, OnOk, OnErr, IfSome, IsErrOf};
ghost use Rattle.outside.specs.Contents.{Contents, NoneChanged, NoneRead, OnlyRead};
ghost use Rattle.outside.specs.Faults.{ReadOf, ToOut, NeverFall, NoneRose, OnlyRose, Rose, of_writes};
ghost use Rattle.outside.specs.WholeFiles.{Appends, GivesOut, IsLongerThan, Puts, refused_by};

use crate::files::{Failed, Files};
use std::alloc::{AllocError, Global};

/// The bytes of a buffer that files are read through.
const PIECE: usize = 65_536;

/// Why a file was not read.
#[derive(Clone, Copy, Debug, PartialEq, Eq)]
pub enum ReadFailure {
    /// A call of `read` failed.
    Fault,
    /// The file has more bytes than the limit.
    TooLong,
    /// There was no memory for its bytes.
    OutOfMemory,
}

impl From<Failed> for ReadFailure {
    ghost use Rattle.std.specs.Prelude.{◌≡◌};
    ghost use Rattle.outside.specs.declared.whole_file.ReadFailure.TheVariants.{Fault};

    ghost from_gives = { λ _ failure. failure ≡ Fault };

    fn from(_failed: Failed) -> ReadFailure {
        ReadFailure::Fault
    }
}

// `len` zeros. A function of its own, so that the prover does not unfold a list of 65,536 of them.
fn zeros(alloc: Global, len: usize) -> Result<Vec<u8>, AllocError>
    ensures length { IfOk result (λ v. length v.items ≡ len) }
    ensures zeros { IfOk result (λ v. All (λ byte. byte ≡ 0) v.items) }
{
    vec![in alloc; 0u8; len]
}

/// A buffer of 65,536 zeros to read files through, as by [`read_whole`]. Its one error is out of memory.
pub fn read_buffer(alloc: Global) -> Result<Vec<u8>, AllocError>
    ensures length { IfOk result (λ v. length v.items ≡ 65536) }
    ensures zeros { IfOk result (λ v. All (λ byte. byte ≡ 0) v.items) }
{
    zeros(alloc, PIECE)
}

// Reads all bytes of the named file, up to the limit, into an empty list, through a buffer.
fn read_into<F: Files>(
    files: &mut F,
    name: &str,
    limit: usize,
    bytes: &mut Vec<u8>,
    buf: &mut [u8],
) -> Result<(), ReadFailure>
    requires room { 0 < length buf.old }
    requires empty { bytes.old.items ≡ [] }
    ensures seen { NoneChanged F.seen files.old files.new }
    ensures own { OnlyRead name.now F.seen files.old files.new }
    ensures no_fault { OnOk result (NoneRose (F.faults files.old) (F.faults files.new)) }
    ensures refused { IfErr result (λ failure. OnlyRose (refused_by failure) (F.faults files.old) (F.faults files.new)) }
    ensures never_fall { NeverFall (F.faults files.old) (F.faults files.new) }
    ensures bytes { (c : Contents) → OnOk result (IfSome (F.seen c files.new) (λ d. d.file name.now ≡ Some bytes.new.items)) }
    ensures fits { OnOk result (length bytes.new.items ≤ limit) }
    ensures fault { IsErrOf result ReadFailure.Fault → Rose (F.faults files.old (ReadOf name.now)) (F.faults files.new (ReadOf name.now)) }
    ensures too_long { (c : Contents) → IsErrOf result ReadFailure.TooLong → IfSome (F.seen c files.new) (λ d. IsLongerThan limit d name.now) }
{
    loop {
        let count = files.read(name, bytes.len() as u64, buf)?;
        if count == 0 {
            return Ok(());
        }
        if count > limit - bytes.len() {
            return Err(ReadFailure::TooLong);
        }
        if bytes.extend_from_slice(&buf[..count]).is_err() {
            return Err(ReadFailure::OutOfMemory);
        }
    }
}

/// All bytes of the named file, of which there may be as many as `limit`, read in pieces through `buf`,
/// which must not be empty. Reads go on from where the one before ended, so a pipe is read like a file.
pub fn read_whole<F: Files>(
    alloc: Global,
    files: &mut F,
    name: &str,
    limit: usize,
    buf: &mut [u8],
) -> Result<Vec<u8>, ReadFailure>
    requires { 0 < length buf.old }
    ensures seen { NoneChanged F.seen files.old files.new }
    ensures own { OnlyRead name.now F.seen files.old files.new }
    ensures no_fault { OnOk result (NoneRose (F.faults files.old) (F.faults files.new)) }
    ensures refused { IfErr result (λ failure. OnlyRose (refused_by failure) (F.faults files.old) (F.faults files.new)) }
    ensures never_fall { NeverFall (F.faults files.old) (F.faults files.new) }
    ensures bytes { (c : Contents) → IfOk result (λ v. IfSome (F.seen c files.new) (λ d. d.file name.now ≡ Some v.items)) }
    ensures fits { IfOk result (λ v. length v.items ≤ limit) }
    ensures fault { IsErrOf result ReadFailure.Fault → Rose (F.faults files.old (ReadOf name.now)) (F.faults files.new (ReadOf name.now)) }
    ensures too_long { (c : Contents) → IsErrOf result ReadFailure.TooLong → IfSome (F.seen c files.new) (λ d. IsLongerThan limit d name.now) }
{
    let mut bytes = Vec::new(alloc);
    read_into(files, name, limit, &mut bytes, buf)?;
    Ok(bytes)
}

// Appends all of the bytes to a file that was begun, in as many calls as it takes.
fn append_all<F: Files>(files: &mut F, name: &str, bytes: &[u8]) -> Result<(), Failed>
    requires begun { (c : Contents) → IfSome (F.seen c files.old) (λ d. d.begun name.now ≡ true) }
    ensures seen { (c : Contents) → Appends result (record { name = name.now; bytes = bytes.now }) (F.faults files.old) (F.faults files.new)
        (F.seen c files.old) (F.seen c files.new) }
    ensures own { NoneRead F.seen files.old files.new }
    ensures no_fault { OnOk result (NoneRose (F.faults files.old) (F.faults files.new)) }
    ensures no_others { OnlyRose of_writes (F.faults files.old) (F.faults files.new) }
    ensures never_fall { NeverFall (F.faults files.old) (F.faults files.new) }
{
    let mut at = 0;
    while at < bytes.len() {
        at += files.write(name, &bytes[at..])?;
    }
    Ok(())
}

/// Begins the named file and writes all of the bytes to it. Where a call fails, the file is as before,
/// or holds a first part of the bytes.
pub fn put_whole<F: Files>(files: &mut F, name: &str, bytes: &[u8]) -> Result<(), Failed>
    ensures seen { (c : Contents) → Puts result (record { name = name.now; bytes = bytes.now }) (F.faults files.old) (F.faults files.new)
        (F.seen c files.old) (F.seen c files.new) }
    ensures own { NoneRead F.seen files.old files.new }
    ensures no_fault { OnOk result (NoneRose (F.faults files.old) (F.faults files.new)) }
    ensures no_others { OnlyRose of_writes (F.faults files.old) (F.faults files.new) }
    ensures never_fall { NeverFall (F.faults files.old) (F.faults files.new) }
{
    files.begin(name)?;
    append_all(files, name, bytes)
}

/// Gives all of the bytes to standard output, in as many calls as it takes. Where a call fails, standard
/// output was given a first part of them.
pub fn put_out<F: Files>(files: &mut F, bytes: &[u8]) -> Result<(), Failed>
    ensures seen { (c : Contents) → GivesOut result bytes.now (F.seen c files.old) (F.seen c files.new) }
    ensures own { NoneRead F.seen files.old files.new }
    ensures cause { OnErr result (Rose (F.faults files.old ToOut) (F.faults files.new ToOut)) }
    ensures no_fault { OnOk result (NoneRose (F.faults files.old) (F.faults files.new)) }
    ensures no_others { OnlyRose of_writes (F.faults files.old) (F.faults files.new) }
    ensures never_fall { NeverFall (F.faults files.old) (F.faults files.new) }
{
    let mut at = 0;
    while at < bytes.len() {
        at += files.out(&bytes[at..])?;
    }
    Ok(())
}
