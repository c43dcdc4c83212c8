//! What lies outside the program: files, standard output and standard error.
#![tactic(auto)]

mod call_log;
mod disk_files;
mod files;
mod memory_files;
mod noted_calls;
mod standard_error;
mod whole_file;

pub use disk_files::DiskFiles;
pub use files::{Failed, Files};
pub use memory_files::{Call, Fail, MemFiles, names_differ};
pub use standard_error::StandardError;
pub use whole_file::{ReadFailure, put_out, put_whole, read_buffer, read_whole};
