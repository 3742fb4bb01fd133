//! The numbers of order lists.

use sq_picks::read_picks;
use std::alloc::{AllocError, Global};
use std::fmt::Write;

pub fn add(alloc: Global, text: &[u8], out: &mut String) -> Result<(), AllocError> {
    match read_picks(alloc, text) {
        Ok(picks) => add_numbers(&picks.into_vec(), out),
        Err(_) => out.push_str(" none"),
    }
}

fn add_numbers(numbers: &[u32], out: &mut String) -> Result<(), AllocError> {
    for number in numbers {
        write!(out, " {number}")?;
    }
    Ok(())
}
