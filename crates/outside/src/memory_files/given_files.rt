ghost use Rattle.std.specs.Prelude.{◌≡◌, ◌≢◌, ◌↔◌, bytes_eq, map, string_bytes, AllPairs, IfOk, IsTrue};
ghost use Rattle.std.specs.List.{list_any};
ghost use Rattle.outside.specs.MemoryFiles.{file_at_start};

use crate::memory_files::stored_file::StoredFile;
use std::alloc::{AllocError, Global};

/// Whether no two of the files have the same name.
pub fn names_differ(files: &[(String, Vec<u8>)]) -> bool
    ensures { IsTrue result ↔ AllPairs (λ f g. string_bytes f.0 ≢ string_bytes g.0) files.now }
{
    for (i, file) in files.iter().enumerate() {
        if is_named_among(&files[..i], file.0.as_str()) {
            return false;
        }
    }
    true
}

fn is_named_among(files: &[(String, Vec<u8>)], name: &str) -> bool
    ensures { result ≡ list_any (λ f. bytes_eq (string_bytes f.0) name.now) files.now }
{
    files.iter().any(|file| file.0.as_str() == name)
}

// The given files as they are stored, in their order.
pub(crate) fn stored(
    alloc: Global,
    files: Vec<(String, Vec<u8>)>,
) -> Result<Vec<StoredFile>, AllocError>
    ensures { IfOk result (λ v. v.items ≡ map file_at_start files.items) }
{
    files
        .into_iter()
        .map(|(name, bytes)| StoredFile::make(name, bytes))
        .collect(alloc)
}
