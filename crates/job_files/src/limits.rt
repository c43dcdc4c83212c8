ghost use Rattle.std.specs.Prelude.{◌≡◌};
ghost use Rattle.job_files.specs.Jobs.{capture_bytes};

use rotating_pick::MAX_FILE_BYTES;

/// The most bytes of a capture of a long job: as many as 32 bits count.
pub const MAX_LONG_CAPTURE: usize = 4_294_967_295;

/// The limits of the files of a job by their numbers: 16,777,216 bytes of a table, and of a capture but in a long job,
/// where it has at most 4,294,967,295. It does nothing; its contract says the numbers, which contracts elsewhere name by
/// the constants.
pub fn limits_are()
    ensures file_bytes { MAX_FILE_BYTES ≡ 16777216 }
    ensures long_capture { MAX_LONG_CAPTURE ≡ 4294967295 }
{}

/// The most bytes of a capture, of a long job or another.
pub(crate) fn capture_bytes(long: bool) -> usize
    ensures { result ≡ capture_bytes long }
{
    if long {
        MAX_LONG_CAPTURE
    } else {
        MAX_FILE_BYTES
    }
}
