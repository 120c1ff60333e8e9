//! The callers of the crate `examples` and the calls of `string_column` at work, each once.
//!
//! They stand apart, since a crate with a test is proved twice.
#![tactic(auto)]

#[cfg(test)]
mod columns;
#[cfg(test)]
mod tests;
