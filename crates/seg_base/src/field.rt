// Number fields, unsigned and big-endian.
ghost use Rattle.std.specs.Prelude.{◌≡◌, ℕ, ◌+◌, ◌^◌, ◌<◌, ◌≤◌, ◌++◌, List, length, IfOk, OnErr, OnOk, MatchOption};
ghost use Rattle.std.specs.Int.{w16, w32, w64, to_be_bytes};
ghost use Rattle.seg_base.specs.Fields.{number_in, put_at};

use crate::NoMemory;

/// Adds two bytes. Without memory nothing is added.
pub fn put_u16(out: &mut Vec<u8>, v: u16) -> Result<(), NoMemory>
    ensures ok { OnOk result (out.new.items ≡ out.old.items ++ to_be_bytes w16 v) }
    ensures err { OnErr result (out.new.items ≡ out.old.items) }
{
    out.extend_from_slice(&v.to_be_bytes())?;
    Ok(())
}

/// Adds four bytes. Without memory nothing is added.
pub fn put_u32(out: &mut Vec<u8>, v: u32) -> Result<(), NoMemory>
    ensures ok { OnOk result (out.new.items ≡ out.old.items ++ to_be_bytes w32 v) }
    ensures err { OnErr result (out.new.items ≡ out.old.items) }
{
    out.extend_from_slice(&v.to_be_bytes())?;
    Ok(())
}

/// Adds eight bytes. Without memory nothing is added.
pub fn put_u64(out: &mut Vec<u8>, v: u64) -> Result<(), NoMemory>
    ensures ok { OnOk result (out.new.items ≡ out.old.items ++ to_be_bytes w64 v) }
    ensures err { OnErr result (out.new.items ≡ out.old.items) }
{
    out.extend_from_slice(&v.to_be_bytes())?;
    Ok(())
}

/// Puts bytes in the place of those that stand from a place on.
pub fn put_at(out: &mut [u8], at: usize, bytes: &[u8])
    requires { at + length bytes.now ≤ length out.old }
    ensures { out.new ≡ put_at out.old at bytes.now }
{
    out[at..at + bytes.len()].copy_from_slice(bytes);
}

/// The number in two bytes from a place on, None exactly where the bytes end before.
pub fn get_u16(b: &[u8], at: usize) -> Option<u16>
    ensures { MatchOption result (length b.now < at + 2) (λ v. (at + 2 ≤ length b.now) × (v ≡ number_in w16 b.now at)) }
{
    if b.len() < 2 || b.len() - 2 < at {
        return None;
    }
    Some(u16::from_be_bytes([b[at], b[at + 1]]))
}

/// The number in four bytes from a place on, None exactly where the bytes end before.
pub fn get_u32(b: &[u8], at: usize) -> Option<u32>
    ensures { MatchOption result (length b.now < at + 4) (λ v. (at + 4 ≤ length b.now) × (v ≡ number_in w32 b.now at)) }
{
    if b.len() < 4 || b.len() - 4 < at {
        return None;
    }
    Some(u32::from_be_bytes([b[at], b[at + 1], b[at + 2], b[at + 3]]))
}

/// The number in eight bytes from a place on, None exactly where the bytes end before.
pub fn get_u64(b: &[u8], at: usize) -> Option<u64>
    ensures { MatchOption result (length b.now < at + 8) (λ v. (at + 8 ≤ length b.now) × (v ≡ number_in w64 b.now at)) }
{
    if b.len() < 8 || b.len() - 8 < at {
        return None;
    }
    Some(u64::from_be_bytes([
        b[at],
        b[at + 1],
        b[at + 2],
        b[at + 3],
        b[at + 4],
        b[at + 5],
        b[at + 6],
        b[at + 7],
    ]))
}

/// The law of the six calls above: what one puts, whatever stands before and after it, the other gets.
pub fn what_is_put_is_got()
    ensures u16 { (front back : List ℕ) (v : ℕ) → v < 2 ^ 16 → number_in w16 (front ++ to_be_bytes w16 v ++ back) (length front) ≡ v }
    ensures u32 { (front back : List ℕ) (v : ℕ) → v < 2 ^ 32 → number_in w32 (front ++ to_be_bytes w32 v ++ back) (length front) ≡ v }
    ensures u64 { (front back : List ℕ) (v : ℕ) → v < 2 ^ 64 → number_in w64 (front ++ to_be_bytes w64 v ++ back) (length front) ≡ v }
{}
