// Laws of the definitions.
ghost use Rattle.std.specs.Prelude.{◌≡◌, Ok};
ghost use Rattle.dmx_abi.specs.Laws.{SpellsOne, WrittenSpells};

use crate::reader::decode;
use crate::request::{AbiFault, Request};
use crate::writer::encode;

/// The law that a number and an argument ask for one request at most. It has nothing to do.
pub fn one_request_is_spelled()
    ensures { SpellsOne }
{}

/// The law that what is written of a request asks for it. It has nothing to do.
#[tactic(auto, using(crate::proofs::Written::written_spells))]
pub fn what_is_written_spells_the_request()
    ensures { WrittenSpells }
{}

/// Writes a request and reads it: it is the request again.
pub fn written_and_read(request: &Request) -> Result<Request, AbiFault>
    ensures { result ≡ Ok request.now }
{
    let mut out = [0; 60];
    let (number, len) = encode(request, &mut out);
    decode(number, &out[..len as usize])
}
