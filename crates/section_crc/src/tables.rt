// Tables by which several bytes are taken at once.
ghost use Rattle.std.specs.Prelude.{◌≡◌, ◌<◌, length, fold};
ghost use Rattle.std.specs.List.{flat_map};
ghost use Rattle.section_crc.specs.Crc.{crc, after_bit, bits_of};
ghost use Rattle.section_crc.specs.Inside.Tables.{entry_of, IsRow, AreRows};

use crate::bitwise::after_byte;

/// Tables by which K bytes are taken at once. Table j has, for each byte, the register after that byte and j bytes of 0,
/// from a register of 0.
#[derive(Drop)]
pub struct Tables<const K: usize> {
    rows: [[u32; 256]; K],
    ghost some: { 0 < K },
    ghost right: { AreRows rows },
}

impl<const K: usize> Tables<K> {
    /// Makes the tables bit by bit. There must be one at least; 1, 4 and 8 are of use.
    pub fn new() -> Tables<K>
        requires { 0 < K }
    {
        let mut rows = [[0; 256]; K];
        'rows: for zeros in 0..K {
            fill(&mut rows[zeros], zeros);
        }
        Tables { rows }
    }

    /// The CRC of these bytes (ISO/IEC 13818-1, Annex A), K bytes at a time.
    pub fn crc(&self, bytes: &[u8]) -> u32
        ensures { result ≡ crc bytes.now }
    {
        crc_by(&self.rows, bytes)
    }
}

// Makes the table with so many bytes of 0.
fn fill(row: &mut [u32; 256], zeros: usize)
    ensures { IsRow zeros row.new }
{
    'entries: for byte in 0..256usize {
        row[byte] = entry(byte as u8, zeros);
    }
}

// The register after a byte and so many bytes of 0, from a register of 0.
fn entry(byte: u8, zeros: usize) -> u32
    ensures { result ≡ entry_of zeros byte }
{
    let mut register = after_byte(0, byte);
    'zeros: for _i in 0..zeros {
        register = after_byte(register, 0);
    }
    register
}

// The CRC by K tables: pieces of K bytes at once, and by the first table each byte that is left.
pub(crate) fn crc_by<const K: usize>(rows: &[[u32; 256]; K], bytes: &[u8]) -> u32
    requires some { 0 < K }
    requires rows { AreRows rows.now }
    ensures { result ≡ crc bytes.now }
{
    let mut register = u32::MAX;
    let mut left = bytes;
    'pieces: while let Some((piece, behind)) = left.split_first_chunk::<K>() {
        register = after_piece(rows, register, piece);
        left = behind;
    }
    'bytes: for byte in left {
        register = by_entry(&rows[0], register, *byte);
    }
    register
}

// The register after K bytes. As each comes, the register's top byte leaves, and their sum adds the entry for the bytes
// that come behind it.
fn after_piece<const K: usize>(rows: &[[u32; 256]; K], register: u32, piece: &[u8; K]) -> u32
    requires { AreRows rows.now }
    ensures { result ≡ fold after_bit register (flat_map bits_of piece.now) }
{
    let mut sum = 0;
    let mut rest = register;
    'bytes: for i in 0..K {
        let leaving = (rest >> 24) as u8;
        sum ^= rows[K - 1 - i][usize::from(leaving ^ piece[i])];
        rest <<= 8;
    }
    sum ^ rest
}

// The register after one byte, by the first table.
fn by_entry(row: &[u32; 256], register: u32, byte: u8) -> u32
    requires { IsRow 0 row.now }
    ensures { result ≡ fold after_bit register (bits_of byte) }
{
    let leaving = (register >> 24) as u8;
    row[usize::from(leaving ^ byte)] ^ register << 8
}
