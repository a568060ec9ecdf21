//! The trusted edge: files and standard output.
mod channel;
mod channels;
mod real_desk;
mod used_files;

pub use real_desk::RealDesk;
