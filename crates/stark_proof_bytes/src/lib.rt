//! Proofs as bytes: numbers of a fixed width, the high byte first, and nothing between them.
#![tactic(auto)]

mod clear;
mod codec;
mod elements;
mod fault;
mod file;
mod fri;
mod lists;
mod options;
mod parts;
mod proof;
mod reader;
mod roots;

pub use codec::BytesCodec;
pub use fault::BytesFault;
pub use file::{proof_from_bytes, proof_to_bytes};
pub use lists::{read_list, read_lists, write_list, write_lists, write_number};
pub use options::{read_list_option, read_option, write_list_option, write_option};
pub use reader::ByteReader;
