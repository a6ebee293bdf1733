// The tests, by what they try.

mod ends;
mod making;
mod packets;
mod requests;
mod sections;
mod streams;

use std::alloc::AllocError as NoMemory;
