// The tests, by what they try.

mod clients;
mod clocks;
mod reports;
mod scripts;

use std::alloc::AllocError as NoMemory;
