// The register, one bit after the other.
ghost use Rattle.std.specs.Prelude.{◌≡◌, fold};
ghost use Rattle.section_crc.specs.Crc.{after_bit, bits_of};

const POLYNOMIAL: u32 = 0x04c1_1db7;

// The register after the eight bits of one byte, which are added to its top eight.
pub(crate) fn after_byte(register: u32, byte: u8) -> u32
    ensures { result ≡ fold after_bit register (bits_of byte) }
{
    let mut after = register ^ u32::from(byte) << 24;
    'bits: for _i in 0..8u32 {
        after = after_zero(after);
    }
    after
}

// The register after a bit of 0.
fn after_zero(register: u32) -> u32
    ensures { result ≡ after_bit register 0 }
{
    if register >> 31 == 0 {
        register << 1
    } else {
        register << 1 ^ POLYNOMIAL
    }
}
