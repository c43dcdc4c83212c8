//! Texts of tables, as the lines of a block set them up.
use crate::escapes::unescaped;
use crate::fields::number;
use crate::row::NoAnswer;
use std::alloc::Global;

/// The text of a table and the ports of its switch.
#[derive(Drop)]
pub struct TableText {
    /// The number of ports, 0 before the block says it.
    pub ports: u32,
    /// The text.
    pub text: Vec<u8>,
    // How often the text of its line comes, one after the other.
    repeats: u32,
}

impl TableText {
    /// Before the first block.
    pub fn new(alloc: Global) -> TableText {
        TableText {
            ports: 0,
            text: Vec::new(alloc),
            repeats: 1,
        }
    }

    /// Reads a line `case NAME`, `n N`, `repeat K` or `text "..."`, and says whether its value was read;
    /// None for any other line.
    pub fn set_up(&mut self, alloc: Global, line: &str) -> Option<Result<(), NoAnswer>> {
        match line.split_once(' ') {
            Some(("case", _)) => Some(self.begin(alloc)),
            Some(("n", value)) => Some(self.set_ports(value)),
            Some(("repeat", value)) => Some(self.set_repeats(value)),
            Some(("text", value)) => Some(self.set_text(alloc, value)),
            _ => None,
        }
    }

    fn begin(&mut self, alloc: Global) -> Result<(), NoAnswer> {
        *self = TableText::new(alloc);
        Ok(())
    }

    fn set_ports(&mut self, value: &str) -> Result<(), NoAnswer> {
        self.ports = number(value)?;
        Ok(())
    }

    fn set_repeats(&mut self, value: &str) -> Result<(), NoAnswer> {
        self.repeats = number(value)?;
        Ok(())
    }

    fn set_text(&mut self, alloc: Global, value: &str) -> Result<(), NoAnswer> {
        let once = unescaped(alloc, value)?;
        let mut text = Vec::new(alloc);
        for _ in 0..self.repeats {
            text.extend_from_slice(once.as_slice())?;
        }
        self.text = text;
        Ok(())
    }
}
