// A record and the 32 bytes of its sector.
ghost use Rattle.std.specs.Prelude.{◌≡◌, ◌+◌, ◌^◌, ◌≤◌, ◌&&◌, length, replicate, ◌==◌};
ghost use Rattle.record.specs.Sector.{sound, lawful, little, bytes_at, parts, told_by};
ghost use Rattle.record.specs.Sector.{content, encoded, ReadsBack, AlwaysBlank};

use crate::crc::crc32;
use crate::numbers::{Rank, Sequence};

// The bytes of a sector.
pub const SECTOR_BYTES: usize = 32;

// A reservation as it stands on the disk: the series, the count of the record, and the first rank that is not reserved.
#[derive(Clone, Copy, PartialEq, Eq, Debug)]
pub struct Record {
    pub series: u8,
    pub sequence: Sequence,
    pub end: Rank,
}

// What the records of one disk have in common: the kind's tag, its last rank, and the count of sectors.
#[derive(Clone, Copy, PartialEq, Eq, Debug)]
pub struct Format {
    pub tag: u8,
    pub top: Rank,
    pub sectors: usize,
}

// What a sector holds: nothing sound, something sound that is no record of this disk, or a record.
#[derive(Clone, Copy, PartialEq, Eq, Debug)]
pub enum Content {
    Blank,
    Foreign,
    Record(Record),
}

// The greatest sequence number that a record may have.
pub const LAST_SEQUENCE: u64 = 0x3fff_ffff_ffff_ffff;

// What these numbers are: 32 bytes, and the sequence numbers below 2^62.
pub fn limits()
    ensures { (SECTOR_BYTES ≡ 32) × (LAST_SEQUENCE + 1 ≡ 2 ^ 62) }
{}

// Whether the last four bytes are the checksum of the others.
pub fn is_sound(sector: &[u8; SECTOR_BYTES]) -> bool
    ensures { result ≡ sound sector.now }
{
    let Some((body, checksum)) = sector.split_last_chunk::<4>() else {
        unreachable()
    };
    crc32(body) == u32::from_le_bytes(*checksum)
}

// Whether a record's numbers are in their ranges, and its sequence number names the sector that it lies in.
fn is_lawful(format: Format, sector: usize, record: Record) -> bool
    ensures { result ≡ lawful format sector «record» }
{
    let number = record.sequence.0;
    let end = record.end.0;
    record.series < 8
        && (1..=LAST_SEQUENCE).contains(&number)
        && 1 <= end
        && end - 1 <= format.top.0
        && format.sectors > 0
        && number % format.sectors as u64 == sector as u64
}

// A number of eight bytes, the lowest first.
fn number_at(bytes: &[u8], at: usize) -> u64
    requires { at + 8 ≤ length bytes.now }
    ensures { result ≡ little (bytes_at at 8 bytes.now) }
{
    let Some(number) = bytes[at..].first_chunk::<8>() else {
        unreachable()
    };
    u64::from_le_bytes(*number)
}

// Whether the bytes that a record leaves free are zero: two single ones, and eight as one number.
fn are_zero(first: u8, second: u8, others: u64) -> bool
    ensures { result ≡ (first == 0 && (second == 0 && others == 0)) }
{
    first == 0 && second == 0 && others == 0
}

// The tag and the record that a sector's bytes tell; none where a byte that a record leaves free is not zero.
fn take_apart(sector: &[u8; SECTOR_BYTES]) -> Option<(u8, Record)>
    ensures { result ≡ told_by (parts sector.now) }
{
    let [tag, series, zero, also_zero, rest @ ..] = sector.as_slice() else {
        unreachable()
    };
    if !are_zero(*zero, *also_zero, number_at(rest, 16)) {
        return None;
    }
    let record = Record {
        series: *series,
        sequence: Sequence(number_at(rest, 0)),
        end: Rank(number_at(rest, 8)),
    };
    Some((*tag, record))
}

// What a sector of this disk holds.
#[tactic(auto, unfolding(crate::specs::Sector::content))]
pub fn classify(format: Format, sector: usize, bytes: &[u8; SECTOR_BYTES]) -> Content
    ensures { result ≡ content format sector bytes.now }
{
    if !is_sound(bytes) {
        return Content::Blank;
    }
    match take_apart(bytes) {
        Some((tag, record)) if tag == format.tag && is_lawful(format, sector, record) => {
            Content::Record(record)
        }
        _ => Content::Foreign,
    }
}

// The 32 bytes of a record.
pub fn encode(tag: u8, record: Record) -> [u8; SECTOR_BYTES]
    ensures bytes { result ≡ encoded tag «record» }
    ensures reads_back { ReadsBack tag «record» result }
{
    let mut sector = [0u8; SECTOR_BYTES];
    sector[0] = tag;
    sector[1] = record.series;
    sector[4..12].copy_from_slice(&record.sequence.0.to_le_bytes());
    sector[12..20].copy_from_slice(&record.end.0.to_le_bytes());
    let checksum = crc32(&sector[0..28]);
    sector[28..32].copy_from_slice(&checksum.to_le_bytes());
    sector
}

// A cleared sector, which is blank: the checksum of 28 zero bytes is not 0.
pub fn cleared() -> [u8; SECTOR_BYTES]
    ensures bytes { result ≡ replicate SECTOR_BYTES 0 }
    ensures blank { AlwaysBlank result }
{
    [0; SECTOR_BYTES]
}
