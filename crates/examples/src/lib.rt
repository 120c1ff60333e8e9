//! Examples: callers of the library with contracts of their own, each a page long.
//!
//! | Module | What it shows |
//! |---|---|
//! | [`lines`] | each call in a few lines |
//! | [`same_text`] | a contract and its proof |
//! | [`tokens`] | the words of a source as symbols, over any backend |
//! | [`lexer`] | a lexer whose keywords are told by number |
//! | [`blocks`] | names in nested blocks |
//! | [`column`] | rows that are compared, merged and counted by code |
//!
//! What is generic over the backend or the hasher is proved for all of them.
#![tactic(auto)]

pub mod blocks;
pub mod column;
pub mod lexer;
pub mod lines;
pub mod same_text;
pub mod tokens;
