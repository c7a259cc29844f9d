// A log has one spelling, both ways.
ghost use Rattle.std.specs.Prelude.{◌≡◌, ◌+◌, ◌<◌, ◌≤◌, ℕ, List, Result, Ok, length, take, slice_index, true};
ghost use Rattle.seg_words.specs.Types.{FIRST_GATE, LOG_HEAD_SIZE, Shape};
ghost use Rattle.log_frame.specs.declared.fault.WrongByte.{WrongByte};
ghost use Rattle.log_frame.specs.Head.{is_formatted, shape_found};
ghost use Rattle.log_frame.specs.Frame.{frames, Walks};
ghost use Rattle.log_frame.specs.Spelling.{IsLog, SpelledFrom};

/// The law of a log's bytes: what is spelled is found, a walk finds one thing, and the groups that it finds up to a
/// closed gate are spelled so.
pub fn a_log_has_one_spelling()
    ensures head { (shape : Shape) (groups : List (List ℕ)) (bytes : List ℕ) → IsLog shape groups bytes
        → (is_formatted bytes ≡ true) × (shape_found (take LOG_HEAD_SIZE bytes) ≡ Ok shape) }
    ensures found { (shape : Shape) (groups : List (List ℕ)) (bytes : List ℕ) → IsLog shape groups bytes
        → Walks bytes FIRST_GATE groups (Ok (FIRST_GATE + length (frames groups))) }
    ensures once { (bytes : List ℕ) (at : ℕ) (first second : List (List ℕ)) (one other : Result ℕ WrongByte)
        → Walks bytes at first one → Walks bytes at second other → (first ≡ second) × (one ≡ other) }
    ensures spelled { (bytes : List ℕ) (at end : ℕ) (groups : List (List ℕ)) → ((i : ℕ) → slice_index bytes i < 256)
        → Walks bytes at groups (Ok end) → SpelledFrom bytes at groups }
{}
