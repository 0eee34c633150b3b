//! Records as bytes: a record is its words a, b, c and d, and each word is eight bytes, least
//! significant first.
ghost use Rattle.std.specs.Prelude.{◌≡◌, ◌≤◌, ◌*◌, ◌++◌, length, take, drop};
ghost use Rattle.em_file.specs.Bytes.{record_bytes, bytes_of};

use byteorder::{ByteOrder, LittleEndian};
use em_record::Record;

/// The bytes of one record.
pub const RECORD_BYTES: usize = 32;

/// Fills `into` with the bytes of the records, 32 for each.
pub fn encode(from: &[Record], into: &mut [u8])
    requires len { length into.old ≡ 32 * length from.now }
    ensures bytes { into.new ≡ bytes_of from.now }
{
    for at in 0..from.len() {
        encode_record(from[at], &mut into[RECORD_BYTES * at..]);
    }
}

/// Leaves in `into` the records that have the bytes of `from`, which has 32 for each.
pub fn decode(from: &[u8], into: &mut [Record])
    requires len { length from.now ≡ 32 * length into.old }
    ensures bytes { bytes_of into.new ≡ from.now }
    ensures len { length into.new ≡ length into.old }
{
    for at in 0..into.len() {
        into[at] = decode_record(&from[RECORD_BYTES * at..]);
    }
}

/// Writes the bytes of a record over the first 32 bytes of `into`.
fn encode_record(item: Record, into: &mut [u8])
    requires { 32 ≤ length into.old }
    ensures { into.new ≡ record_bytes item ++ drop 32 into.old }
{
    LittleEndian::write_u64(into, item.a);
    LittleEndian::write_u64(&mut into[8..], item.b);
    LittleEndian::write_u64(&mut into[16..], item.c);
    LittleEndian::write_u64(&mut into[24..], item.d);
}

/// The record of the first 32 bytes.
fn decode_record(from: &[u8]) -> Record
    requires { 32 ≤ length from.now }
    ensures { record_bytes result ≡ take 32 from.now }
{
    Record {
        a: LittleEndian::read_u64(from),
        b: LittleEndian::read_u64(&from[8..]),
        c: LittleEndian::read_u64(&from[16..]),
        d: LittleEndian::read_u64(&from[24..]),
    }
}
