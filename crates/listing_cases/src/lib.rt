//! Cases of the listing: the oven's page, each stop, and too long an input.

#![tactic(auto)]

#[cfg(test)]
mod tests;
