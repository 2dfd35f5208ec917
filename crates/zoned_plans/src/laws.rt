//! Theorems: functions that only have a contract, and are never called.

pub mod fires;
pub mod steps;
