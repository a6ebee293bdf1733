// A node's filter: which packets it takes, and what its selector is to select.

ghost use Rattle.std.specs.Prelude.{◌≡◌};
ghost use Rattle.node_core.specs.Imports.{begun, has_flag, is_same_input, params_of};
ghost use Rattle.node_core.specs.Offers.{choice_of, input_of};

use dmx_calls::limits::{CHECK_CRC, IMMEDIATE_START};
use dmx_calls::{Input, Output, Params, SectionParams};
use item_select::{Checks, Give, Selector};
use node_buffer::is_oneshot;

/// Its packets come from this input. Those of a section filter come from the frontend.
pub fn takes_from(params: &Params, input: Input) -> bool
    ensures { result ≡ is_same_input input (input_of (params_of params.now)) }
{
    match params {
        Params::Pes { params, .. } => params.input == input,
        Params::Empty | Params::Section(_) => input == Input::Frontend,
    }
}

/// DMX_IMMEDIATE_START is among these flags.
pub fn starts_at_once(flags: u32) -> bool
    ensures { result ≡ has_flag IMMEDIATE_START flags }
{
    flags & IMMEDIATE_START != 0
}

// DMX_CHECK_CRC is among its flags.
fn checks_crc(params: &SectionParams) -> bool
    ensures { result ≡ has_flag CHECK_CRC params.now.flags }
{
    params.flags & CHECK_CRC != 0
}

/// The selector begins anew with this filter. Only the outputs to the demux node select anything for its reader.
pub fn select(selector: &mut Selector, params: &Params)
    ensures { selector.new ≡ begun (choice_of (params_of params.now)) }
{
    match params {
        Params::Empty => selector.set_none(),
        Params::Section(wanted) => {
            let checks = Checks {
                crc: checks_crc(wanted),
                once: is_oneshot(wanted),
            };
            selector.set_sections(wanted.pid, &wanted.filter, checks);
        }
        Params::Pes { params, .. } => match params.output {
            Output::Tap => selector.set_packets(Give::Payload),
            Output::TsdemuxTap => selector.set_packets(Give::Whole),
            Output::TsTap | Output::Decoder => selector.set_none(),
        },
    }
}
