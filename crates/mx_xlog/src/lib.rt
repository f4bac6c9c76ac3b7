//! The format of journal and snapshot files: a header, blocks of rows, each with its checksum, and a marker at the end.
#![tactic(auto)]

mod block;
mod crc;
mod head;
mod header;
mod laws;
mod lines;
mod reading;
mod tables;

pub use block::{Block, begin_block, end_block, read_block, write_block, write_end};
pub use crc::checksum;
pub use head::Head;
pub use header::write_header;
pub use laws::{all_bytes_read_as_a_file, blocks_are_spelled};
pub use reading::{HeadFault, read_header};
