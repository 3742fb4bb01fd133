//! Tests of rows of cells, of the outside in memory, of orders, and of arrays on devices that fail.
#![tactic(auto)]

#[cfg(test)]
mod array_tests;
#[cfg(test)]
mod order_tests;
#[cfg(test)]
mod outside_tests;
#[cfg(test)]
mod row_tests;
