// Which transactions have ended.
ghost use Rattle.std.specs.Prelude.{◌≡◌};

use crate::TxnId;

/// Knows which transactions have ended.
pub trait Ended {
    ghost use Rattle.std.specs.Prelude.{ℕ, Bool};

    ghost has_ended: { Self → ℕ → Bool };

    fn ended(&self, txn: TxnId) -> bool
        ensures { result ≡ has_ended self.now txn };
}
