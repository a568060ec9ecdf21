//! Desks in memory: files by name, and what each slot has of them.
mod bytes;
mod cuts;
mod files;
mod honest_desk;
mod memory_desk;
mod place;
mod places;
mod script;
mod shelf;
mod transfer;

pub use honest_desk::HonestDesk;
pub use memory_desk::MemoryDesk;
