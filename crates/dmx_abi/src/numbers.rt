// The numbers of the requests: linux/dvb/dmx.h on the usual ABI.

/// `DMX_START`, `_IO('o', 41)`.
pub const START: u32 = 0x6f29;

/// `DMX_STOP`, `_IO('o', 42)`.
pub const STOP: u32 = 0x6f2a;

/// `DMX_SET_FILTER`, `_IOW('o', 43, struct dmx_sct_filter_params)`.
pub const SET_FILTER: u32 = 0x403c_6f2b;

/// `DMX_SET_PES_FILTER`, `_IOW('o', 44, struct dmx_pes_filter_params)`.
pub const SET_PES_FILTER: u32 = 0x4014_6f2c;

/// `DMX_SET_BUFFER_SIZE`, `_IO('o', 45)`.
pub const SET_BUFFER_SIZE: u32 = 0x6f2d;

/// `DMX_GET_STC`, `_IOWR('o', 50, struct dmx_stc)`.
pub const GET_STC: u32 = 0xc010_6f32;

/// `DMX_ADD_PID`, `_IOW('o', 51, __u16)`.
pub const ADD_PID: u32 = 0x4002_6f33;

/// `DMX_REMOVE_PID`, `_IOW('o', 52, __u16)`.
pub const REMOVE_PID: u32 = 0x4002_6f34;
