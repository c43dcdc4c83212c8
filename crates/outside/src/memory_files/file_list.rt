ghost use Rattle.std.specs.Prelude.{◌≡◌, ◌<◌, ◌⊎◌, ℕ, [], ◌++◌, true, None, Some, length, option_map, position, bytes_eq, IfSome, OnOk, OnErr};
ghost use Rattle.std.specs.Option.{option_copied};
ghost use Rattle.outside.specs.Calls.{NamesFile};
ghost use Rattle.outside.specs.MemoryFiles.{FileState, file_named, counts_at, CountsFault, HasNoRoom, PutsFile};

use crate::files::Failed;
use crate::memory_files::calls::{Call, CallCounts};
use crate::memory_files::stored_file::StoredFile;
use std::alloc::{AllocError, Global};

// Where the file of this name stands.
pub(crate) fn place_of(files: &[StoredFile], name: &str) -> Option<usize>
    ensures place { result ≡ position (λ f. bytes_eq name.now f.name) files.now }
    ensures within { IfSome result (λ i. i < length files.now) }
{
    files.iter().position(|file| file.has_name(name))
}

// The bytes of the file of this name.
pub(crate) fn bytes_of<'a>(files: &'a [StoredFile], name: &str) -> Option<&'a [u8]>
    ensures { option_copied result ≡ option_map (λ f. f.bytes) (file_named name.now files.now) }
{
    let place = place_of(files, name)?;
    Some(files[place].bytes())
}

// Counts a failed call, at its name, or elsewhere where that is not there.
pub(crate) fn count_fault(
    files: &mut Vec<StoredFile>,
    elsewhere: &mut CallCounts,
    call: Call,
    name: &str,
) -> Failed
    requires { NamesFile call }
    ensures { CountsFault call name.now files.old.items files.new.items elsewhere.old elsewhere.new }
{
    match place_of(files.as_slice(), name) {
        Some(place) => files[place].count(call),
        None => elsewhere.raise(call),
    }
    Failed
}

// Makes the file of this name empty and begun. A new file begins with the counts that its name had.
pub(crate) fn begin_file(
    files: &mut Vec<StoredFile>,
    alloc: Global,
    elsewhere: CallCounts,
    name: &str,
) -> Result<(), AllocError>
    ensures ok { OnOk result ((room : ℕ)
        × PutsFile files.old.items files.new.items name.now
        (record { name = name.now; bytes = []; room = room; begun = true; faults = counts_at files.old.items elsewhere name.now })) }
    ensures err { OnErr result (files.new.items ≡ files.old.items) }
    ensures absent { OnErr result (file_named name.now files.old.items ≡ None) }
{
    match place_of(files.as_slice(), name) {
        Some(place) => {
            files[place].empty();
            Ok(())
        }
        None => add_begun(files, alloc, elsewhere, name),
    }
}

// Adds an empty file that is begun, with these counts.
fn add_begun(
    files: &mut Vec<StoredFile>,
    alloc: Global,
    faults: CallCounts,
    name: &str,
) -> Result<(), AllocError>
    requires absent { file_named name.now files.old.items ≡ None }
    ensures ok { OnOk result ((room : ℕ)
        × PutsFile files.old.items files.new.items name.now (record { name = name.now; bytes = []; room = room; begun = true; faults = faults })) }
    ensures err { OnErr result (files.new.items ≡ files.old.items) }
{
    let name = String::from_str(alloc, name)?;
    files.push(StoredFile::begun(name, Vec::new(alloc), faults))?;
    Ok(())
}

// Appends these bytes to the file of this name. It fails where there is none, and where more memory
// is needed and refused.
pub(crate) fn append_to(files: &mut Vec<StoredFile>, name: &str, piece: &[u8]) -> Result<(), Failed>
    ensures ok { OnOk result ((f : FileState) × (room : ℕ) × (file_named name.now files.old.items ≡ Some f)
        × PutsFile files.old.items files.new.items name.now (record f { bytes = f.bytes ++ piece.now; room = room })) }
    ensures err { OnErr result (files.new.items ≡ files.old.items) }
    ensures cause { OnErr result ((file_named name.now files.old.items ≡ None) ⊎ HasNoRoom files.old.items name.now (length piece.now)) }
{
    match place_of(files.as_slice(), name) {
        Some(place) => match files[place].append(piece) {
            Ok(()) => Ok(()),
            Err(_) => Err(Failed),
        },
        None => Err(Failed),
    }
}
