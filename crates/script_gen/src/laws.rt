// Laws of the generated script.
ghost use Rattle.std.specs.Prelude.{◌≡◌, ◌≤◌, ◌<◌, ◌^◌, ◌+◌, ◌/◌, ℕ, length, codes, false};
ghost use Rattle.script_text.specs.declared.form.Forms.{Forms};
ghost use Rattle.script_text.specs.declared.statement.Statement.TheVariants as asks;
ghost use Rattle.script_text.specs.Spelled.{IsScript, IsStatement};
ghost use Rattle.script_gen.specs.Drawn.{drawn, nth_number, row_of};
ghost use Rattle.script_gen.specs.Generated.{generated, statements_of};

/// The generated script is in the grammar where the form of its shrink is built: each statement is spelled, and no label is bound
/// twice.
pub fn generated_in_grammar()
    ensures { (forms : Forms) → (number rows : ℕ) → rows < 2 ^ 16 → IsStatement forms (asks.Shrink (codes "g") false) → IsScript forms (generated number rows) }
{}

/// Each row has 20 to 80 bytes. The first three numbers that 1 leads to draw so.
pub fn rows_are_drawn()
    ensures least { (x : ℕ) → 20 ≤ length (row_of x) }
    ensures most { (x : ℕ) → length (row_of x) ≤ 80 }
    ensures first { drawn (nth_number 1 1) ≡ 16838 }
    ensures second { drawn (nth_number 1 2) ≡ 5758 }
    ensures third { drawn (nth_number 1 3) ≡ 10113 }
{}

/// Beside the inserts and the deletes stand a commit for each hundred rows, begun or full, and five statements.
pub fn statements_are_counted()
    ensures { (number rows : ℕ) → length (statements_of number rows) ≡ 5 + rows + (rows + 99) / 100 + rows / 2 }
{}
