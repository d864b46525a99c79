// Access bits and rights: what the three access bytes of a trailer say of a group, and which key may do what under those bits.
#![tactic(auto)]

mod bits;
mod rights;

pub use bits::{AccessBytes, access_bytes_of, bits_of};
pub use rights::{
    DataRow, Keys, Letter, Operation, Parts, Readable, TrailerRow, allows, data_row, is_mute,
    is_readable, may, trailer_row, writable,
};
