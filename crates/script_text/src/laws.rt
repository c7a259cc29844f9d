// Laws of the grammar.
ghost use Rattle.std.specs.Prelude.{◌≡◌, ℕ, List, Option, Ok};
ghost use Rattle.script_text.specs.declared.form.Form.{Form};
ghost use Rattle.script_text.specs.declared.form.Forms.{Forms};
ghost use Rattle.script_text.specs.declared.statement.Statement.{Statement};
ghost use Rattle.script_text.specs.Script.{Script};
ghost use Rattle.script_text.specs.Rows.{row};
ghost use Rattle.script_text.specs.Grammar.{scripts_of};
ghost use Rattle.script_text.specs.Spelled.{IsSpelled, IsScript, form_of, behind, printed};

/// The line of a statement has one spelling: what stands behind its first word is read as the statement, and whatever
/// is read as a statement is what stands so.
#[tactic(auto, using(crate::proofs::RowsSaid::row_says))]
pub fn one_spelling()
    ensures read { (s : Statement) → IsSpelled s → row (form_of s) (behind s) ≡ Ok s }
    ensures spelled { (form : Form) → (rest : Option (List ℕ)) → (s : Statement) → row form rest ≡ Ok s → behind s ≡ rest }
{}

/// The scripts that some bytes spell are those whose parts are as the grammar takes them: each of these is spelled by
/// the bytes that it is printed as, and nothing else is read from any bytes, whichever forms are built.
#[tactic(auto, using(crate::proofs::ScriptSaid::printed_says))]
pub fn scripts_are_spelled()
    ensures printed { (forms : Forms) → (script : Script) → IsScript forms script → scripts_of forms (printed script) ≡ Ok script }
    ensures read { (forms : Forms) → (text : List ℕ) → (script : Script) → scripts_of forms text ≡ Ok script → IsScript forms script }
{}
