//! Tests of tables, the allocator and the MiniFAT in memory that no row says (crates/cfb_script/CASES.md): a crate beside them, because a crate
//! with tests of its own is proved twice.
#![tactic(auto)]

#[cfg(test)]
mod checked;
#[cfg(test)]
mod fats;
#[cfg(test)]
mod listed;
#[cfg(test)]
mod mini_table;
#[cfg(test)]
mod sectors;
