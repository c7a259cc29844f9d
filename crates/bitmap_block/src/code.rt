// Class codes as a page has them.
ghost use Rattle.std.specs.Prelude.{◌≡◌, ◌<◌, ◌≤◌, length, take};
ghost use Rattle.bitmap_block.specs.Codes.{codes_in, AreCodes};

use crate::limit::GREATEST_CODE;

/// Reads as many codes as there is room for, each as the nearest that there is.
#[tactic(auto, using(crate::proofs::Reading::none_read, crate::proofs::Reading::read_next, crate::proofs::Reading::all_read))]
pub fn read_codes(bytes: &[u8], codes: &mut [u8])
    requires { length codes.old ≤ length bytes.now }
    ensures codes { codes.new ≡ codes_in (length codes.old) bytes.now }
    ensures range { AreCodes codes.new }
{
    for i in 0..codes.len() {
        codes[i] = bytes[i].min(GREATEST_CODE);
    }
}
