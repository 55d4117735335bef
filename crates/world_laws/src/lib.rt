//! That lowered programs mean what their sources mean, stated part by part. Read `specs/Worlds.antt`, `specs/Yields.antt`, `specs/Meanings.antt`.
//! `proofs/` has what several of the crates that prove the parts need.
#![tactic(auto)]
