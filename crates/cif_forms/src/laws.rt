// What is written is read again.
ghost use Rattle.std.specs.Prelude.{◌≡◌, ◌<◌, ◌++◌, ◌∷◌, [], ℕ, ℤ, pos, true, false, FitsSigned, List, Some, Result, Ok, map, codes};
ghost use Rattle.std.specs.Int.{w32};
ghost use Rattle.std.specs.List.{AllByRecursion, flat_map};
ghost use Rattle.text_scan.specs.Decimal.{decimal};
ghost use Rattle.text_scan.specs.PlainNames.{is_plain_name};
ghost use Rattle.text_scan.specs.Written.{line_of};
ghost use Rattle.text_form.specs.Parts.{first_faulty_part_or};
ghost use Rattle.text_form.specs.SaidLines.{and_then};
ghost use Rattle.cif_forms.specs.declared.commands.CifCommand.TheVariants.{Area, Call, End, Finish, Layer, ReadOver, Start};
ghost use Rattle.cif_forms.specs.declared.commands.SaidMove.{SaidMove};
ghost use Rattle.cif_forms.specs.Commands.{is_layer_name, says};
ghost use Rattle.cif_forms.specs.Cutting.{commands_from, commands_of, line_of_command, step_on};
ghost use Rattle.cif_forms.specs.Written.{AreUnmarked, LooksPastLineFeeds, MoveFits, first_fault_of, is_unmarked_text};
ghost use Rattle.cif_forms.specs.Written.{move_words, without_line, written_parts, written_text};

use crate::cutting::CommandReader;

/// A law: a text of commands, each with its semicolon on a line of its own, and of `E` on the last line, is cut into these commands. A reader
/// that does not look at the line feed before a command reads them one after another, and then `E`, or meets the same first fault.
pub fn reads_written_texts<R: CommandReader>()
    ensures commands { (commands : List (List ℕ))
        → AreUnmarked commands → commands_of (written_text commands) ≡ commands_from 1 (written_parts [] commands) }
    ensures read { (state : R) (commands : List (List ℕ))
        → LooksPastLineFeeds R.step → AreUnmarked commands
        → without_line (first_faulty_part_or line_of_command (step_on R.step) state (commands_of (written_text commands)))
        ≡ and_then (first_fault_of R.step state commands) (λ next. R.step next (codes "E" ++ 10 ∷ []) false) }
{}

/// A law: each command that is written says what it was written for. A number has 32 bits, and the name of a layer is one. A line feed
/// before a command says nothing.
pub fn says_what_is_written()
    ensures start { (n a b : ℤ) → FitsSigned w32 n → FitsSigned w32 a → FitsSigned w32 b
        → says (line_of (codes "DS" ∷ map decimal (n ∷ a ∷ b ∷ []))) ≡ Start n a b }
    ensures half { (n : ℤ) → FitsSigned w32 n
        → says (line_of (codes "DS" ∷ decimal n ∷ codes "1" ∷ codes "2" ∷ [])) ≡ Start n (pos 1) (pos 2) }
    ensures name { (name : List ℕ) → says (line_of (codes "9" ∷ name ∷ [])) ≡ ReadOver }
    ensures layer { (name : List ℕ) → is_layer_name name ≡ true → says (line_of (codes "L" ∷ name ∷ [])) ≡ Layer (Some name) }
    ensures part { (k : ℕ) → k < 1000 → is_layer_name (codes "P" ++ decimal (pos k)) ≡ true }
    ensures area { (l w x y : ℤ) → FitsSigned w32 l → FitsSigned w32 w → FitsSigned w32 x → FitsSigned w32 y
        → says (line_of (codes "B" ∷ map decimal (l ∷ w ∷ x ∷ y ∷ []))) ≡ Area l w x y false }
    ensures call { (n : ℤ) (moves : List SaidMove) → FitsSigned w32 n → AllByRecursion MoveFits moves
        → says (line_of (codes "C" ∷ decimal n ∷ flat_map move_words moves)) ≡ Call n moves false }
    ensures finish { says (line_of (codes "DF" ∷ [])) ≡ Finish }
    ensures end { (bytes : List ℕ) → says (codes "E" ++ bytes) ≡ End }
    ensures line_feed { (bytes : List ℕ) → says (10 ∷ bytes) ≡ says bytes }
{}

/// A law: no byte of a written command is a parenthesis, or ends a command.
pub fn written_commands_are_unmarked()
    ensures line { (words : List (List ℕ)) → AreUnmarked words → is_unmarked_text (line_of words) ≡ true }
    ensures name { (name : List ℕ) → is_plain_name name ≡ true → is_unmarked_text (line_of (codes "9" ∷ name ∷ [])) ≡ true }
    ensures layer { (name : List ℕ) → is_layer_name name ≡ true → is_unmarked_text (line_of (codes "L" ∷ name ∷ [])) ≡ true }
    ensures numbers { (word : List ℕ) (numbers : List ℤ) → is_unmarked_text word ≡ true → is_unmarked_text (line_of (word ∷ map decimal numbers)) ≡ true }
    ensures call { (n : ℤ) (moves : List SaidMove) → is_unmarked_text (line_of (codes "C" ∷ decimal n ∷ flat_map move_words moves)) ≡ true }
{}
