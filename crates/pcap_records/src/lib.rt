//! Captures in the classic pcap file format, version 2.4, read and written.
//!
//! A capture file is a header of 24 bytes and then records to the end of the file; a record is a header
//! of 16 bytes and then the captured bytes of one packet. The format is that of the Internet-Draft "PCAP
//! Capture File Format" (draft-ietf-opsawg-pcap), of which the link types 1 and 101 are read.
#![tactic(auto)]

mod capture;
mod fault;
mod header;
pub mod laws;
mod limits;
mod link;
mod order;
mod reader;
mod record;
mod writer;

pub use capture::{Capture, Stored};
pub use fault::PcapFault;
pub use header::{Header, read_header};
pub use limits::{FILE_HEADER_BYTES, RECORD_HEADER_BYTES};
pub use link::Link;
pub use order::Order;
pub use reader::read_capture;
pub use record::read_record;
pub use writer::{write_header, write_record};
