// Names of the script, seen as their bytes.
ghost use Rattle.std.specs.Prelude.{◌≡◌, List, ℕ, IfOk, MatchOption, false, true};
ghost use Rattle.std.specs.List.{list_all};
ghost use Rattle.seg_base.specs.Words.{is_name, is_lower, is_name_byte};

use crate::NoMemory;
use crate::limit::LONGEST_NAME;
use std::alloc::Global;
use std::marker::Model;

/// A name of the script: a table's or a label's, without its sign.
#[derive(Debug, Drop)]
pub struct Name {
    bytes: Vec<u8>,
}

impl Model for Name {
    ghost Value = { List ℕ };

    ghost view = { λ n. n.bytes.items };

    ghost invariant = { λ n. is_name n.bytes.items ≡ true };
}

fn is_name_start(byte: u8) -> bool
    ensures { result ≡ is_lower byte }
{
    matches!(byte, b'a'..=b'z')
}

fn is_name_part(byte: u8) -> bool
    ensures { result ≡ is_name_byte byte }
{
    matches!(byte, b'a'..=b'z' | b'0'..=b'9' | b'_')
}

fn are_name_parts(bytes: &[u8]) -> bool
    ensures { result ≡ list_all is_name_byte bytes.now }
{
    bytes.iter().all(|b| is_name_part(*b))
}

/// Whether the bytes are a name: 1 to 30 bytes, a lower-case letter first, then lower-case letters, digits and `_`.
pub fn is_name(bytes: &[u8]) -> bool
    ensures { result ≡ is_name bytes.now }
{
    if bytes.is_empty() || bytes.len() > LONGEST_NAME {
        return false;
    }
    is_name_start(bytes[0]) && are_name_parts(bytes)
}

impl Name {
    /// None exactly where the bytes are no name.
    pub fn copy(alloc: Global, bytes: &[u8]) -> Result<Option<Name>, NoMemory>
        ensures { IfOk result (λ found. MatchOption found (is_name bytes.now ≡ false) (λ name. (name ≡ bytes.now) × (is_name bytes.now ≡ true))) }
    {
        if !is_name(bytes) {
            return Ok(None);
        }
        Ok(Some(Name {
            bytes: Vec::from_slice(alloc, bytes)?,
        }))
    }

    pub fn as_slice(&self) -> &[u8]
        ensures same { result.now ≡ self.now }
        ensures name { is_name self.now ≡ true }
    {
        self.bytes.as_slice()
    }

    pub fn duplicate(&self, alloc: Global) -> Result<Name, NoMemory>
        ensures { IfOk result (λ name. name ≡ self.now) }
    {
        Ok(Name {
            bytes: Vec::from_slice(alloc, &self.bytes)?,
        })
    }
}
