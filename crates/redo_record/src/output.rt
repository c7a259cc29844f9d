// Bytes that are added to others, field by field.
ghost use Rattle.std.specs.Prelude.{◌≡◌, ◌∷◌, []};
ghost use Rattle.seg_words.specs.Types.{w16, w32, w64};
ghost use Rattle.redo_record.specs.Spelling.{big_endian};
ghost use Rattle.redo_record.specs.Adding.{Adds};

use seg_base::{NoMemory, put_u16, put_u32, put_u64};

pub fn byte(out: &mut Vec<u8>, byte: u8) -> Result<(), NoMemory>
    ensures { Adds result out.old.items out.new.items (byte ∷ []) }
{
    out.push(byte)?;
    Ok(())
}

pub fn bytes(out: &mut Vec<u8>, bytes: &[u8]) -> Result<(), NoMemory>
    ensures { Adds result out.old.items out.new.items bytes.now }
{
    out.extend_from_slice(bytes)?;
    Ok(())
}

#[tactic(auto, using(crate::proofs::Adding::adding), unfolding(crate::specs::Spelling::big_endian))]
pub fn u16(out: &mut Vec<u8>, number: u16) -> Result<(), NoMemory>
    ensures { Adds result out.old.items out.new.items (big_endian w16 number) }
{
    put_u16(out, number)
}

#[tactic(auto, using(crate::proofs::Adding::adding), unfolding(crate::specs::Spelling::big_endian))]
pub fn u32(out: &mut Vec<u8>, number: u32) -> Result<(), NoMemory>
    ensures { Adds result out.old.items out.new.items (big_endian w32 number) }
{
    put_u32(out, number)
}

#[tactic(auto, using(crate::proofs::Adding::adding), unfolding(crate::specs::Spelling::big_endian))]
pub fn u64(out: &mut Vec<u8>, number: u64) -> Result<(), NoMemory>
    ensures { Adds result out.old.items out.new.items (big_endian w64 number) }
{
    put_u64(out, number)
}
