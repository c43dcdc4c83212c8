ghost use Rattle.std.specs.Prelude.{◌≡◌, ◌<◌, ◌≤◌, ◌++◌, IfOk, OnOk};
ghost use Rattle.std.specs.String.{string_bytes};
ghost use Rattle.switch_plan.specs.Made.{address_text, ports_text, end_text, route_text, group_text, level_text, made_table};

use rotating_pick::{LEVELS, MAX_PORTS, OutOfMemory};
use std::alloc::{AllocError, Global};

// Groups of routes at each level: to one port, and to two.
const GROUPS: u32 = 2;

/// The table that `gen` makes for a switch of `ports` ports, 1 to 64.
pub(crate) fn made_table(alloc: Global, ports: u32) -> Result<Vec<u8>, OutOfMemory>
    requires { ports ≤ MAX_PORTS }
    ensures { IfOk result (λ text. text.items ≡ made_table ports) }
{
    let mut text = String::new(alloc);
    for level in 0..LEVELS {
        push_level(&mut text, ports, level)?;
    }
    Ok(text.into_bytes())
}

// Adds the routes of a level.
fn push_level(text: &mut String, ports: u32, level: u32) -> Result<(), AllocError>
    requires { ports ≤ MAX_PORTS }
    ensures { OnOk result (string_bytes text.new ≡ string_bytes text.old ++ level_text ports level) }
{
    for group in 0..GROUPS {
        push_group(text, ports, level, group)?;
    }
    Ok(())
}

// Adds the routes of a group.
fn push_group(text: &mut String, ports: u32, level: u32, group: u32) -> Result<(), AllocError>
    requires { ports ≤ MAX_PORTS }
    ensures { OnOk result (string_bytes text.new ≡ string_bytes text.old ++ group_text ports level group) }
{
    for port in 0..ports {
        push_route(text, ports, level, group, port)?;
    }
    Ok(())
}

// Adds the route to a port, and in group 1 to the next port too.
fn push_route(
    text: &mut String,
    ports: u32,
    level: u32,
    group: u32,
    port: u32,
) -> Result<(), AllocError>
    requires size { ports ≤ MAX_PORTS }
    requires port { port < ports }
    ensures { OnOk result (string_bytes text.new ≡ string_bytes text.old ++ route_text ports level group port) }
{
    push_address(text, level, group, port)?;
    push_ports(text, ports, group, port)?;
    write!(text, " {level}\n")
}

// Adds the address of a route.
fn push_address(text: &mut String, level: u32, group: u32, port: u32) -> Result<(), AllocError>
    ensures { OnOk result (string_bytes text.new ≡ string_bytes text.old ++ address_text level group port) }
{
    write!(text, "10.{level}.{group}.{port}/32 ")
}

// Adds the ports of a route.
fn push_ports(text: &mut String, ports: u32, group: u32, port: u32) -> Result<(), AllocError>
    requires size { ports ≤ MAX_PORTS }
    requires port { port < ports }
    ensures { OnOk result (string_bytes text.new ≡ string_bytes text.old ++ ports_text ports group port) }
{
    if group == 1 && 1 < ports {
        let next = (port + 1) % ports;
        return write!(text, "{port},{next}");
    }
    write!(text, "{port}")
}
