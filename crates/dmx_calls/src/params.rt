// What the two set calls ask for.

ghost use Rattle.std.specs.Prelude.{◌≡◌};
ghost use Rattle.dmx_calls.specs.Names.{input_text, output_text};

use filter_match::SectionFilter;
use pid_set::Pids;

/// Where a filter's packets come from.
#[derive(Clone, Copy, Debug, PartialEq, Eq, Drop)]
pub enum Input {
    /// DMX_IN_FRONTEND: the stream that is fed in.
    Frontend,
    /// DMX_IN_DVR: what is written to the dvr node.
    Dvr,
}

impl Input {
    /// Its word in scripts and reports.
    #[tactic(auto, unfolding(crate::specs::Names::input_text))]
    pub fn name(self) -> &'static str
        ensures { result.now ≡ input_text self }
    {
        match self {
            Input::Frontend => "frontend",
            Input::Dvr => "dvr",
        }
    }
}

/// Where a PES filter's items go.
#[derive(Clone, Copy, Debug, PartialEq, Eq, Drop)]
pub enum Output {
    /// DMX_OUT_DECODER, which is refused.
    Decoder,
    /// DMX_OUT_TAP: payloads, read from the demux node.
    Tap,
    /// DMX_OUT_TS_TAP: whole packets, read from the dvr node.
    TsTap,
    /// DMX_OUT_TSDEMUX_TAP: whole packets, read from the demux node.
    TsdemuxTap,
}

impl Output {
    /// Its word in scripts and reports.
    #[tactic(auto, unfolding(crate::specs::Names::output_text))]
    pub fn name(self) -> &'static str
        ensures { result.now ≡ output_text self }
    {
        match self {
            Output::Decoder => "decoder",
            Output::Tap => "tap",
            Output::TsTap => "ts_tap",
            Output::TsdemuxTap => "tsdemux_tap",
        }
    }
}

/// What DMX_SET_FILTER asks for.
#[derive(Clone, Copy, Debug, PartialEq, Eq, Drop)]
pub struct SectionParams {
    /// The PID whose sections are filtered.
    pub pid: u16,
    /// What a section has to match.
    pub filter: SectionFilter,
    /// How long to wait for the first section, in milliseconds; 0 waits for ever.
    pub timeout: u32,
    /// The bits of the flags: DMX_CHECK_CRC, DMX_ONESHOT, DMX_IMMEDIATE_START and KEEP.
    pub flags: u32,
}

/// What DMX_SET_PES_FILTER asks for.
#[derive(Clone, Copy, Debug, PartialEq, Eq, Drop)]
pub struct PesParams {
    /// The first PID of the filter, or 0x2000 for every packet.
    pub pid: u16,
    /// Where the packets come from.
    pub input: Input,
    /// Where the items go.
    pub output: Output,
    /// The PES type, 0 to 20.
    pub pes_type: u32,
    /// The bits of the flags. Only DMX_IMMEDIATE_START and KEEP have an effect.
    pub flags: u32,
}

/// What was set on a node.
#[derive(Debug, PartialEq, Eq, Drop)]
pub enum Params {
    /// No filter.
    Empty,
    /// A section filter.
    Section(SectionParams),
    /// A PES filter.
    Pes {
        /// What the set call asked for.
        params: PesParams,
        /// The filter's PIDs, with those that were added and without those that were removed.
        pids: Pids,
    },
}
