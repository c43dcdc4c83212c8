//! Text in quotes, with `\n`, `\r`, `\t`, `\"`, `\\` and `\xNN` as in Rust.
use crate::row::NoAnswer;
use std::alloc::Global;

// What was read of an escape.
#[derive(Clone, Copy)]
enum Escape {
    No,
    Begun,
    Hex,
    HexDigit(u8),
}

/// The bytes of a text in quotes.
pub fn unescaped(alloc: Global, text: &str) -> Result<Vec<u8>, NoAnswer> {
    let mut bytes = Vec::new(alloc);
    let mut escape = Escape::No;
    for byte in inner(text)?.bytes() {
        let (next, written) = escape.after(byte)?;
        if let Some(written) = written {
            bytes.push(written)?;
        }
        escape = next;
    }
    match escape {
        Escape::No => Ok(bytes),
        _ => Err(NoAnswer),
    }
}

// What stands between the quotes.
fn inner(text: &str) -> Result<&str, NoAnswer> {
    let Some(rest) = text.strip_prefix('"') else {
        return Err(NoAnswer);
    };
    match rest.strip_suffix('"') {
        Some(inner) => Ok(inner),
        None => Err(NoAnswer),
    }
}

impl Escape {
    // What is read of an escape after one more byte, and the byte that is written with it.
    fn after(self, byte: u8) -> Result<(Escape, Option<u8>), NoAnswer> {
        match (self, byte) {
            (Escape::No, b'\\') => Ok((Escape::Begun, None)),
            (Escape::No, _) => Ok((Escape::No, Some(byte))),
            (Escape::Begun, b'x') => Ok((Escape::Hex, None)),
            (Escape::Begun, _) => Ok((Escape::No, Some(meant(byte)?))),
            (Escape::Hex, _) => Ok((Escape::HexDigit(digit(byte)?), None)),
            (Escape::HexDigit(high), _) => {
                let low = digit(byte)?;
                Ok((Escape::No, Some(high.wrapping_mul(16).wrapping_add(low))))
            }
        }
    }
}

fn meant(byte: u8) -> Result<u8, NoAnswer> {
    match byte {
        b'n' => Ok(b'\n'),
        b'r' => Ok(b'\r'),
        b't' => Ok(b'\t'),
        b'"' | b'\\' => Ok(byte),
        _ => Err(NoAnswer),
    }
}

fn digit(byte: u8) -> Result<u8, NoAnswer> {
    match byte {
        b'0'..=b'9' => Ok(byte - b'0'),
        b'a'..=b'f' => Ok(byte - b'a' + 10),
        b'A'..=b'F' => Ok(byte - b'A' + 10),
        _ => Err(NoAnswer),
    }
}
