//! Reading lists of tokens by descent, at any type of token.
//!
//! There is no program logic here: `specs/` has reading as functions, `proofs/` their laws, which the readers share.
#![tactic(auto)]
