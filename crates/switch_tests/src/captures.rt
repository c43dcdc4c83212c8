use std::alloc::AllocError;

/// The header of a little-endian capture of Ethernet, in microseconds.
pub(crate) const ETHERNET: &[u8] =
    b"\xd4\xc3\xb2\xa1\x02\x00\x04\x00\x00\x00\x00\x00\x00\x00\x00\x00\x00\x00\x04\x00\x01\x00\x00\x00";

/// The same with a frame of 60 bytes to 10.0.1.1, of two cells.
pub(crate) const ONE_FRAME: &[u8] =
    b"\xd4\xc3\xb2\xa1\x02\0\x04\0\0\0\0\0\0\0\0\0\0\0\x04\0\x01\0\0\0\
    \x01\0\0\0\x02\0\0\0\x3c\0\0\0\x3c\0\0\0\
    \x02\0\0\0\0\x01\x02\0\0\0\0\x02\x08\0\x45\0\0\x2e\0\0\0\0\x40\xfd\0\0\x0a\0\0\x01\x0a\0\x01\x01\
    \0\0\0\0\0\0\0\0\0\0\0\0\0\0\0\0\0\0\0\0\0\0\0\0\0\0";

/// Appends a record at time 0 with `len` captured bytes: those of `first`, and then `fill` over and over.
pub(crate) fn add_record(
    capture: &mut Vec<u8>,
    first: &[u8],
    fill: u8,
    len: u32,
) -> Result<(), AllocError> {
    for number in [0, 0, len, len] {
        capture.extend_from_slice(&number.to_le_bytes())?;
    }
    capture.extend_from_slice(first)?;
    for _ in first.len()..len as usize {
        capture.push(fill)?;
    }
    Ok(())
}
