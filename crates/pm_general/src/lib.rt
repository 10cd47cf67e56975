//! General maps and maps whose faces have given even degrees, as classes that are sampled through a class behind them.
#![tactic(auto)]

mod bipartite;
mod general;

pub use bipartite::Bipartite;
pub use general::General;

#[cfg(test)]
mod tests;
