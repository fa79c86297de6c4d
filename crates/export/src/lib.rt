// The library for C and Rust: each call takes any numbers and any bytes, and answers with a struct. include/mbenaruul.h declares them. A refusal
// crosses as document 01's number with its values, and what it does not answer is zeros. The crates above call them here, and `export_c`, a static library,
// exports each under its own name.
#![tactic(auto)]

pub mod headers;
pub mod pairs;
pub mod records;
pub mod refusals;
pub mod runs;
pub mod writing;
