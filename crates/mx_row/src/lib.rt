//! Rows of a journal and the transactions that they make up: as bytes both ways, and as vclocks.
#![tactic(auto)]

mod bodies;
mod body_completion;
mod completion;
mod cut;
mod header;
mod header_completion;
mod laws;
mod limits;
mod owned_tx;
mod progress;
mod reading;
mod row;
mod row_fault;
mod row_list;
mod row_ref;
mod row_refs;
pub mod row_types;
mod rows;
mod size;
mod tx;
mod tx_ref;
mod values;
mod writing;

pub use laws::{what_is_read_is_spelled, what_is_spelled_is_read, what_is_written_is_spelled};
pub use limits::{MAX_ROWS, MAX_TRANSACTION_SIZE, ROW_HEADER_SIZE};
pub use owned_tx::read_tx;
pub use reading::read_tx_in_place;
pub use row::Row;
pub use row_fault::RowFault;
pub use row_ref::RowRef;
pub use row_refs::RowRefs;
pub use rows::Rows;
pub use size::{MAX_BODY_SIZE, row_size};
pub use tx::Tx;
pub use tx_ref::{TxRef, to_owned};
pub use writing::{write_row, write_tx};
