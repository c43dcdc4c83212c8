//! The fields of a row, read: words, numbers, sets of ports and addresses.
ghost use Rattle.std.specs.Prelude.{◌<◌, ◌≤◌, IfOk};

use crate::row::NoAnswer;
use rotating_pick::{MAX_PORTS, Ports};
use std::alloc::{AllocError, Global};

/// The words of a line.
pub fn words(alloc: Global, line: &str) -> Result<Vec<&str>, AllocError> {
    line.split(' ').collect(alloc)
}

/// A decimal number.
pub fn number(text: &str) -> Result<u32, NoAnswer> {
    match text.parse::<u32>() {
        Ok(number) => Ok(number),
        Err(_) => Err(NoAnswer),
    }
}

/// A decimal number of a byte.
pub fn byte(text: &str) -> Result<u8, NoAnswer> {
    match text.parse::<u8>() {
        Ok(number) => Ok(number),
        Err(_) => Err(NoAnswer),
    }
}

/// An IPv4 address as `10.0.0.1`, or `-` for none.
pub fn address(alloc: Global, text: &str) -> Result<Option<u32>, NoAnswer> {
    if text == "-" {
        return Ok(None);
    }
    let octets: Vec<&str> = text.split('.').collect(alloc)?;
    let [first, second, third, fourth] = octets.as_slice() else {
        return Err(NoAnswer);
    };
    let octets = [byte(first)?, byte(second)?, byte(third)?, byte(fourth)?];
    Ok(Some(u32::from_be_bytes(octets)))
}

/// How many ports a switch has: 1 to 64.
pub fn port_count(text: &str) -> Result<u32, NoAnswer>
    ensures some { IfOk result (λ n. 0 < n) }
    ensures size { IfOk result (λ n. n ≤ MAX_PORTS) }
{
    let n = number(text)?;
    if n == 0 || n > MAX_PORTS {
        return Err(NoAnswer);
    }
    Ok(n)
}

/// A set of ports, as `0x1f`.
pub fn port_set(text: &str) -> Result<Ports, NoAnswer> {
    let Some(digits) = text.strip_prefix("0x") else {
        return Err(NoAnswer);
    };
    match u64::from_str_radix(digits, 16) {
        Ok(ports) => Ok(ports),
        Err(_) => Err(NoAnswer),
    }
}
