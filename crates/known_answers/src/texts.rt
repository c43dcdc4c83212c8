//! The fields of an answer, written as the vector files have them.
use pcap_records::Link;
use rotating_pick::{Kind, Ports};
use std::alloc::{AllocError, Global};

/// A number, or `-` for none.
pub fn choice_text(alloc: Global, choice: Option<u32>) -> Result<String, AllocError> {
    match choice {
        Some(port) => format!(in alloc; "{port}"),
        None => String::from_str(alloc, "-"),
    }
}

/// Numbers, parted by commas; `-` for no numbers.
pub fn numbers_text(alloc: Global, numbers: &[u32]) -> Result<String, AllocError> {
    if numbers.is_empty() {
        return String::from_str(alloc, "-");
    }
    let mut list = String::new(alloc);
    for number in numbers {
        let item = format!(in alloc; "{number}")?;
        add_item(&mut list, item.as_str())?;
    }
    Ok(list)
}

/// For each port a number, or `-` for none, parted by commas.
pub fn choices_text(alloc: Global, choices: &[Option<u32>]) -> Result<String, AllocError> {
    let mut list = String::new(alloc);
    for choice in choices {
        let item = choice_text(alloc, *choice)?;
        add_item(&mut list, item.as_str())?;
    }
    Ok(list)
}

/// Sets of ports, parted by commas.
pub fn port_sets_text(alloc: Global, sets: &[Ports]) -> Result<String, AllocError> {
    let mut list = String::new(alloc);
    for set in sets {
        let item = format!(in alloc; "{set:#x}")?;
        add_item(&mut list, item.as_str())?;
    }
    Ok(list)
}

/// Adds an item to a list that is parted by commas.
pub fn add_item(list: &mut String, item: &str) -> Result<(), AllocError> {
    if !list.is_empty() {
        list.push(',')?;
    }
    list.push_str(item)
}

/// `u` for unicast, `m` for multicast.
pub fn kind_letter(kind: Kind) -> char {
    match kind {
        Kind::Uni => 'u',
        Kind::Multi => 'm',
    }
}

/// What a capture counts its fractions in: `nano` or `micro`.
pub fn unit_name(nano: bool) -> &'static str {
    if nano { "nano" } else { "micro" }
}

/// The number of a link type.
pub fn link_number(link: Link) -> u32 {
    match link {
        Link::Ethernet => 1,
        Link::RawIp => 101,
    }
}
