//! What is read: files and standard input one behind the other, their lines or a field of each, and what stands for bytes that are
//! not UTF-8.

pub mod block;
pub mod blocks;
pub mod compression;
pub mod field;
pub mod inputs;
pub mod line_blocks;
pub mod mend;
pub mod ready;
pub mod split;
pub mod streams;
pub mod whole;
pub mod zero;
