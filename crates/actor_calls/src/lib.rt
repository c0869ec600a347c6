//! The calls of one actor in a history, and what its absorbs have to do with the raises of lines. Definitions
//! and proofs alone, for boards that record their history and boards whose history exists only in contracts.
#![tactic(auto)]
