// Requests of programs: what words spell of them, and their names.
use crate::shown::add_number;
use client_script::{argument_named, request_number};
use dmx_abi::numbers::{
    ADD_PID, GET_STC, REMOVE_PID, SET_BUFFER_SIZE, SET_FILTER, SET_PES_FILTER, START, STOP,
};
use dmx_abi::{AbiFault, Request, argument_len, decode};
use std::alloc::AllocError as NoMemory;

// Requests of linux/dvb/dmx.h that no node here has: DMX_GET_PES_PIDS, `_IOR('o', 47, __u16[5])`, and those for mapped
// buffers, `_IOWR('o', 60, ..)` to `_IOWR('o', 64, ..)`.
const GET_PES_PIDS: u32 = 0x800a_6f2f;

const REQBUFS: u32 = 0xc008_6f3c;

const QUERYBUF: u32 = 0xc018_6f3d;

const EXPBUF: u32 = 0xc00c_6f3e;

const QBUF: u32 = 0xc018_6f3f;

const DQBUF: u32 = 0xc018_6f40;

// The name of a request in linux/dvb/dmx.h, by its number.
fn request_name(number: u32) -> Option<&'static str> {
    match number {
        START => Some("DMX_START"),
        STOP => Some("DMX_STOP"),
        SET_FILTER => Some("DMX_SET_FILTER"),
        SET_PES_FILTER => Some("DMX_SET_PES_FILTER"),
        SET_BUFFER_SIZE => Some("DMX_SET_BUFFER_SIZE"),
        GET_STC => Some("DMX_GET_STC"),
        ADD_PID => Some("DMX_ADD_PID"),
        REMOVE_PID => Some("DMX_REMOVE_PID"),
        GET_PES_PIDS => Some("DMX_GET_PES_PIDS"),
        REQBUFS => Some("DMX_REQBUFS"),
        QUERYBUF => Some("DMX_QUERYBUF"),
        EXPBUF => Some("DMX_EXPBUF"),
        QBUF => Some("DMX_QBUF"),
        DQBUF => Some("DMX_DQBUF"),
        _ => None,
    }
}

/// Appends what is said of a word in the place of a request's number: its name, where the header of the kernel has one.
pub fn add_request_name(text: &mut String, word: &[u8]) -> Result<(), NoMemory> {
    let Some(number) = request_number(word) else {
        return text.push_str(", as 00006f29 for DMX_START");
    };
    match request_name(number) {
        Some(name) => {
            text.push_str("; this is ")?;
            text.push_str(name)?;
            text.push_str(", which no node has")
        }
        None => text.push_str("; no request has this one"),
    }
}

// Appends how an argument of this length is spelled.
fn add_length(text: &mut String, len: u32) -> Result<(), NoMemory> {
    if len == 0 {
        return text.push_str(", '-' for no bytes");
    }
    text.push_str(", ")?;
    add_number(text, len as u64)?;
    text.push_str(" bytes in two hexadecimal digits each")
}

// Appends what is wrong with a word that is no argument of the request with this number.
fn add_cause(text: &mut String, number: u32, word: &[u8]) -> Result<(), NoMemory> {
    let Some(argument) = argument_named(word) else {
        return text.push_str(" (in lower case)");
    };
    match decode(number, &argument) {
        Ok(Request::SetPes { input, output, .. }) => {
            text.push_str(" with input 0 or 1 and output 0 to 3, and not ")?;
            add_number(text, input as u64)?;
            text.push_str(" and ")?;
            add_number(text, output as u64)
        }
        Err(AbiFault::Length { found, .. }) => {
            text.push_str(", and not ")?;
            add_number(text, found)
        }
        _ => Ok(()),
    }
}

/// Appends what is asked of an argument of the request with this number, by the request's name, and what is said of the word
/// that stands there, if one does.
pub fn add_argument(text: &mut String, number: u32, word: Option<&[u8]>) -> Result<(), NoMemory> {
    text.push_str(" of ")?;
    text.push_str(request_name(number).unwrap_or("this request"))?;
    add_length(text, argument_len(number).unwrap_or(0))?;
    match word {
        Some(word) => add_cause(text, number, word),
        None => Ok(()),
    }
}
