//! Numbers, layers and words of every refusal of the product.

#![tactic(auto)]

pub mod stop;
pub mod table;
