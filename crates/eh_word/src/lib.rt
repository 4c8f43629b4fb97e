//! Building blocks for reading the tables of the Exception Handling ABI (IHI 0038) and ELF files: words, relative
//! addresses, ULEB128 numbers and names. Also the digits of printed addresses, and vectors that contracts see as lists.
#![tactic(auto)]

pub mod address;
pub mod bytes;
pub mod fault;
pub mod name;
pub mod seq;
pub mod words;

pub use address::address_text;
pub use fault::{NameMemory, WordFault};
pub use name::Name;
pub use seq::Seq;
pub use words::{get_half, get_word, prel31, uleb128};
