//! How the definitions look things up in a grammar in normal form: the token or rule that a symbol
//! is, the productions by their numbers, names and kinds. There is no code here.
#![tactic(auto)]
