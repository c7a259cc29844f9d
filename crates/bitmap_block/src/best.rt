// The best of several class codes.
ghost use Rattle.std.specs.Prelude.{◌≡◌};
ghost use Rattle.bitmap_block.specs.Codes.{best_of, good_code};

use crate::limit::LEAST_GOOD_CODE;

fn good_code(code: u8) -> u8
    ensures { result ≡ good_code code }
{
    if code < LEAST_GOOD_CODE { 0 } else { code }
}

/// The greatest code from 2 on, else 0: a full block and one that isn't formatted are no good.
#[tactic(auto, using(crate::proofs::BestOf::best_more, crate::proofs::BestOf::best_all))]
pub fn best_of(codes: &[u8]) -> u8
    ensures { result ≡ best_of codes.now }
{
    let mut best = 0;
    for code in codes {
        best = good_code(*code).max(best);
    }
    best
}
