//! The wire format of Cap'n Proto: definitions and their laws. The definitions are in `specs/`, in
//! the order of `specs/Lib.antt`; docs/FORMAT.md explains them to readers who know Cap'n Proto. The
//! only code here is the laws: functions that do nothing, each with a law as its contract.
#![tactic(auto)]

pub mod laws;
