// The requests, and why a number and bytes are none.
use thiserror::Error;

/// What a program asks of a demux device. Each variant is a request of linux/dvb/dmx.h, and its fields are those of the request's
/// structure, as they are: nothing is said of which values the device accepts.
#[derive(Clone, Copy, Debug, PartialEq, Eq, Drop)]
pub enum Request {
    /// `DMX_SET_FILTER`, `struct dmx_sct_filter_params`: sets a section filter.
    SetFilter {
        /// The PID.
        pid: u16,
        /// The bits that a section is held against.
        filter: [u8; 16],
        /// Which of these bits count.
        mask: [u8; 16],
        /// Which of these bits are to differ: 0 for equal.
        mode: [u8; 16],
        /// How long to wait for a section, in milliseconds.
        timeout: u32,
        /// The flags: `DMX_CHECK_CRC` 1, `DMX_ONESHOT` 2, `DMX_IMMEDIATE_START` 4.
        flags: u32,
    },
    /// `DMX_SET_PES_FILTER`, `struct dmx_pes_filter_params`: sets a PES filter.
    SetPes {
        /// The PID.
        pid: u16,
        /// `enum dmx_input`: 0 for the front end, 1 for the dvr device.
        input: u32,
        /// `enum dmx_output`: 0 for the decoder, 1 for TAP, 2 for TS_TAP, 3 for TSDEMUX_TAP.
        output: u32,
        /// `enum dmx_ts_pes`: 0 to 19 for audio, video, teletext, subtitle and PCR of four decoders, 20 for any other.
        pes_type: u32,
        /// The flags.
        flags: u32,
    },
    /// `DMX_SET_BUFFER_SIZE`: sets the size of the buffer, in bytes.
    SetSize(u32),
    /// `DMX_START`: starts the filter.
    Start,
    /// `DMX_STOP`: stops the filter.
    Stop,
    /// `DMX_ADD_PID`: adds a PID to the filter.
    AddPid(u16),
    /// `DMX_REMOVE_PID`: removes a PID from the filter.
    RemovePid(u16),
    /// `DMX_GET_STC`, `struct dmx_stc`: asks for a system time counter.
    GetStc {
        /// Which of the counters.
        num: u32,
    },
}

/// Why a number and an argument ask for nothing.
#[derive(Clone, Copy, Debug, PartialEq, Eq, Drop, Error)]
pub enum AbiFault {
    /// No request has the number.
    #[error("no request has the number {number:#x}")]
    Unknown {
        /// The number.
        number: u32,
    },
    /// A request has the number, and its argument has another length.
    #[error("the request's argument has {want} bytes, and {found} were found")]
    Length {
        /// How many bytes the request's argument has.
        want: u32,
        /// How many bytes were found.
        found: u64,
    },
}
