//! Texts of a volume: names and dstrings in OSTA Compressed Unicode (OSTA UDF 2.1.1 and 2.1.3). Its one contract: a
//! name is the list of its characters, and each call answers what the definitions give of these characters or bytes,
//! or want of memory. It stands on `thiserror` alone.
#![tactic(auto)]

mod decode;
mod encode;
mod fault;
mod law;
mod name;
mod size;

pub use decode::{decode_dstring, decode_name};
pub use encode::{encode_dstring, encode_name};
pub use fault::TextFault;
pub use law::{decoding_law, dstring_law, encoding_law, front_law, text_law};
pub use name::{Name, NoMemory};

#[cfg(test)]
mod tests;
