// How a store lends undo pages.
ghost use Rattle.std.specs.Prelude.{◌≡◌, ℕ, List, OnOk, IfErr, IfSome, IsSome};
ghost use Rattle.seg_words.specs.Types.{Shape};
ghost use Rattle.redo_model.specs.Records.{Record};
ghost use Rattle.version_laws.specs.Types.{HoldsUndo, IsInUse};

use undo_block::UndoBlock;

/// A store that lends undo pages one at a time. What it lends is what its redo list makes of these pages; of a store whose
/// list isn't lawful nothing is said.
pub trait UndoPages {
    ghost use Rattle.std.specs.Prelude.{◌≡◌, ℕ, List};
    ghost use Rattle.seg_words.specs.Types.{Shape};
    ghost use Rattle.redo_model.specs.Records.{Record};

    /// What a call answers that fails.
    type Fault: Drop;

    /// The store has this shape and this redo list, and its pages are what the list makes them.
    ghost has_list: { Shape → List Record → Self → Type 0 };

    /// The page of this undo block was fetched, and can be lent.
    ghost lends: { ℕ → Self → Type 0 };

    /// What became of a store of which pages were fetched.
    ghost looked: { Self → Self → Type 0 };

    /// What became of a store in calls of which the last failed, and why it may have.
    ghost failed: { Self → Self → Self.Fault → Type 0 };

    /// A fault that a store may answer whose list is lawful: of the device, or want of memory.
    ghost is_sound: { Self.Fault → Type 0 };

    /// Fetches an undo block, which `undo` then lends.
    fn fetch_undo(&mut self, block: u32) -> Result<(), Self::Fault>
        ensures lent { OnOk result (lends block self.new) }
        ensures looked { OnOk result (looked self.old self.new) }
        ensures failed { IfErr result (failed self.old self.new) }
        ensures sound { (sh : Shape) (R : List Record) → has_list sh R self.old → IsInUse sh R block → IfErr result is_sound };

    /// An undo block that was fetched, with no other call by `&mut` since. None comes only where the block holds no undo.
    fn undo(&self, block: u32) -> Option<&UndoBlock>
        requires { lends block self.now }
        ensures page { (sh : Shape) (R : List Record) → has_list sh R self.now → IfSome result (λ p. HoldsUndo R block p.now) }
        ensures there { (sh : Shape) (R : List Record) → has_list sh R self.now → IsInUse sh R block → IsSome result };

    /// The fault that the page of an undo block is none that a walk may meet.
    fn refuse_undo(&mut self, block: u32) -> Self::Fault
        ensures { failed self.old self.new result };

    ghost kept: { (sh : Shape) (R : List Record) (a b : Self) → looked a b → has_list sh R a → has_list sh R b };

    ghost looked_none: { (a : Self) → looked a a };

    ghost looked_on: { (a b c : Self) → looked a b → looked b c → looked a c };

    ghost failed_on: { (a b c : Self) (f : Self.Fault) → looked a b → failed b c f → failed a c f };
}
