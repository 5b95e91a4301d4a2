//! Predicates of queries: a query, a text and what a host answers go in; which matches are kept
//! comes out.
#![tactic(auto)]

mod asking;
mod closure;
mod hosts;
mod judge;
mod judging;
mod predicates;
#[cfg(test)]
mod tests;

pub use closure::{HostCall, HostClosure, HostRule};
pub use hosts::Hosts;
pub use predicates::Predicates;
