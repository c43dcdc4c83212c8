//! Lists in the answers of rows.
use std::alloc::AllocError;

/// Adds an item to a list that is parted by blanks.
pub fn add_item(text: &mut String, item: &str) -> Result<(), AllocError> {
    if !text.is_empty() {
        text.push(' ')?;
    }
    text.push_str(item)
}
