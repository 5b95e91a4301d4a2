//! What the tables of a parser are: when a grammar is fit for them, the items that are valid after
//! a list of symbols, the actions that stay on a token, and the conflicts that a grammar declares.
//! Definitions alone: no value goes in or out.
#![tactic(auto)]
