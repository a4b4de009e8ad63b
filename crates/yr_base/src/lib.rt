//! What the scanner stands on: bytes and places, files, output, numbers and steps.
#![tactic(auto)]

mod atom;
mod border;
mod byte;
mod disk_store;
mod fault;
mod laws;
mod memory;
mod memory_sink;
mod memory_store;
mod place;
mod putting;
mod reading;
mod sink;
mod steps;
mod store;
mod stream_sink;
mod value;
mod writing;

pub use atom::Atom;
pub use border::Border;
pub use byte::{is_alphanumeric, is_word_byte};
pub use disk_store::DiskStore;
pub use laws::words_pass;
pub use memory::NoMemory;
pub use memory_sink::MemorySink;
pub use memory_store::MemoryStore;
pub use place::{has_left_border, has_right_border, is_edge, is_wide_edge};
pub use putting::put_all;
pub use sink::{PutAnswer, Sink};
pub use steps::Steps;
pub use store::{ReadAnswer, Store, WriteAnswer};
pub use stream_sink::StreamSink;
pub use value::{Kind, ShortText, Truth, Value};

#[cfg(test)]
mod stream_tests;
#[cfg(test)]
mod tests;
