//! Cases of the console: a watched oven, every kind of broken input, and a stop of each layer.

#![tactic(auto)]

#[cfg(test)]
mod tests;
