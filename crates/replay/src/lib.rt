//! A whole session in one call from C or Rust: a script of bytes in, its answers in bytes out.

#![tactic(auto)]

mod answer;
mod call;
pub mod export;
mod output;
mod play;
mod run;
mod script;
mod split;
