// The replay's language: the lines that it has, their reading and their printing (docs/REPLAY.md).
#![tactic(auto)]

pub mod commands;
pub mod dumped;
pub mod help;
pub mod input;
pub mod output;
pub mod questions;
pub mod raw;
pub mod records;
pub mod scanner;
pub mod spelled;
pub mod unexpected;
