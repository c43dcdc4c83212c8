//! The forwarding table: reads its text, and answers the route of an address by longest prefix match.
//!
//! The text has lines of the form `target blanks ports [blanks level]`, where a target is `*` or an
//! IPv4 prefix as `10.0.0.0/8`, and the ports are a list as `0,3`. An empty line, and a line whose
//! first word begins with `#`, mean nothing.
#![tactic(auto)]

mod faults;
mod forms;
pub mod laws;
mod limits;
mod lookup;
mod ordered_lines;
mod reader;
mod route_cache;
mod route_lines;
mod text;

pub use faults::TableFault;
pub use limits::MAX_LINES;
pub use lookup::Table;
pub use reader::read_table;
pub use route_cache::RouteCache;
pub use route_lines::Route;
