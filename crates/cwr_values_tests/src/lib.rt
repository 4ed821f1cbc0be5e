//! Tests of devices, cells, lines, their order and their numbers, and of transactions, groups, transmissions and items.
#![tactic(auto)]

#[cfg(test)]
mod cells;
#[cfg(test)]
mod checks;
#[cfg(test)]
mod codes;
#[cfg(test)]
mod devices;
#[cfg(test)]
mod groups;
#[cfg(test)]
mod items;
#[cfg(test)]
mod layouts;
#[cfg(test)]
mod levels;
#[cfg(test)]
mod limits;
#[cfg(test)]
mod lines;
#[cfg(test)]
mod quick_tests;
#[cfg(test)]
mod records;
#[cfg(test)]
mod stages;
#[cfg(test)]
mod tallies;
#[cfg(test)]
mod transactions;
#[cfg(test)]
mod typed_cells;
#[cfg(test)]
mod worked_records;
