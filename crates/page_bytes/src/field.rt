// Numbers in the bytes of a page, and what each page begins with.
ghost use Rattle.std.specs.Prelude.{◌≡◌, ◌≤◌, ◌<◌, ◌^◌, ◌+◌, length, take, drop};
ghost use Rattle.seg_words.specs.Types.{w16, w32, w64, number_in};
ghost use Rattle.page_bytes.specs.Pages.{head_bytes};

use seg_base::{Dba, Lsn, PAGE_HEAD_SIZE, put_at};

/// The number in two bytes from a place on.
pub fn number_u16(bytes: &[u8], at: usize) -> u16
    requires { at + 2 ≤ length bytes.now }
    ensures { result ≡ number_in w16 bytes.now at }
{
    let part = &bytes[at..at + 2];
    u16::from_be_bytes([part[0], part[1]])
}

/// The number in four bytes from a place on.
pub fn number_u32(bytes: &[u8], at: usize) -> u32
    requires { at + 4 ≤ length bytes.now }
    ensures { result ≡ number_in w32 bytes.now at }
{
    let part = &bytes[at..at + 4];
    u32::from_be_bytes([part[0], part[1], part[2], part[3]])
}

/// The number in eight bytes from a place on.
pub fn number_u64(bytes: &[u8], at: usize) -> u64
    requires { at + 8 ≤ length bytes.now }
    ensures { result ≡ number_in w64 bytes.now at }
{
    let part = &bytes[at..at + 8];
    u64::from_be_bytes([
        part[0], part[1], part[2], part[3], part[4], part[5], part[6], part[7],
    ])
}

/// The first bytes, as far as they go, and the others.
pub fn cut(bytes: &[u8], len: usize) -> (&[u8], &[u8])
    ensures front { result.0.now ≡ take len bytes.now }
    ensures back { result.1.now ≡ drop len bytes.now }
    ensures most { length result.0.now ≤ len }
    ensures both { length result.0.now + length result.1.now ≡ length bytes.now }
{
    if len <= bytes.len() {
        bytes.split_at(len)
    } else {
        bytes.split_at(bytes.len())
    }
}

/// Numbers of these types are in their ranges.
pub fn in_range(four: u32, eight: u64)
    ensures four { four < 2 ^ 32 }
    ensures eight { eight < 2 ^ 64 }
{
    let _numbers = (four, eight);
}

/// The 16 bytes that a page begins with.
pub fn head_bytes(kind: u8, first: u8, second: u8, dba: Dba, lsn: Lsn) -> [u8; PAGE_HEAD_SIZE]
    ensures { result ≡ head_bytes kind first second dba lsn }
{
    let mut bytes = [0; PAGE_HEAD_SIZE];
    bytes[0] = kind;
    bytes[1] = first;
    bytes[2] = second;
    put_at(&mut bytes, 4, &dba.0.to_be_bytes());
    put_at(&mut bytes, 8, &lsn.0.to_be_bytes());
    bytes
}
