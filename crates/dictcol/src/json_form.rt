//! The file that `encode` writes and `decode` reads.

mod escapes;
pub mod file;
pub mod format;
mod quoted;
mod stream;
