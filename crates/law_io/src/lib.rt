// Streams of bytes whose contracts tell what was read, what was written, and that each fault was counted.
#![tactic(auto)]

mod adapters;
mod giving;
mod memory;
mod pushing;
mod streams;
mod sure;

pub use adapters::{StdSink, StdSource};
pub use memory::{MemSink, MemSource};
pub use pushing::push_all;
pub use streams::{Failed, Sink, Source};
pub use sure::{SureSink, SureSource};
