//! Captures as files in memory, and the reading of them.
use outside::{Files, MemFiles, names_differ};
use std::alloc::Global;

/// The most bytes that a read gives: more than a capture has, so that each is read by one call.
const PIECE: u32 = 16_777_216;

/// Files in memory, and for each of them a buffer of its length.
#[derive(Drop)]
pub(crate) struct Copies {
    files: MemFiles,
    names: Vec<String>,
    buffers: Vec<Vec<u8>>,
}

impl Copies {
    /// The captures as files, into whose buffers nothing was read yet; None where there was no memory.
    pub(crate) fn new(alloc: Global, captures: Vec<Vec<u8>>) -> Option<Copies> {
        let mut given = Vec::new(alloc);
        let mut names = Vec::new(alloc);
        let mut buffers = Vec::new(alloc);
        for (port, capture) in captures.into_iter().enumerate() {
            buffers.push(vec![in alloc; 0; capture.len()].ok()?).ok()?;
            names.push(format!(in alloc; "{port}").ok()?).ok()?;
            given
                .push((format!(in alloc; "{port}").ok()?, capture))
                .ok()?;
        }
        if !names_differ(given.as_slice()) {
            return None;
        }
        let files = MemFiles::make(alloc, given, PIECE, Vec::new(alloc)).ok()?;
        Some(Copies {
            files,
            names,
            buffers,
        })
    }

    /// Reads each file into its buffer, and answers how many bytes were read.
    pub(crate) fn read(&mut self) -> u64 {
        let mut total: u64 = 0;
        for (name, buffer) in self.names.iter().zip(self.buffers.iter_mut()) {
            if let Ok(count) = self.files.read(name.as_str(), 0, buffer.as_mut_slice()) {
                total = total.wrapping_add(count as u64);
            }
        }
        total
    }

    /// The buffers.
    pub(crate) fn into_buffers(self) -> Vec<Vec<u8>> {
        self.buffers
    }
}
