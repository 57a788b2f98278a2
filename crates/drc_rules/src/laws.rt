//! The law of files of rules. The function here does nothing; its contract is the law.
ghost use Rattle.std.specs.Prelude.{◌≡◌, ◌↔◌, ℕ, List, Ok, Err};
ghost use Rattle.text_scan.specs.Lines.{lines_of};
ghost use Rattle.text_form.specs.declared.reading.At.{At};
ghost use Rattle.tech_model.specs.declared.raw.RawTech.{RawTech};
ghost use Rattle.drc_rules.specs.declared.faults.DrcFault.{DrcFault};
ghost use Rattle.drc_rules.specs.declared.rules.Rule.{Rule};
ghost use Rattle.drc_rules.specs.RuleFiles.{rules_of, SayRules, IsRefusedAt};

/// A file of rules is read exactly where each of its lines says a rule or is read over and there are not too many: it gives these rules, in
/// order. It is refused exactly at its first faulty line, with the first fault of that line.
pub fn rule_files_say_their_rules_line_by_line()
    ensures read { (raw : RawTech) (text : List ℕ) (rules : List Rule) → (rules_of raw text ≡ Ok rules) ↔ SayRules raw (lines_of text) rules }
    ensures refused { (raw : RawTech) (text : List ℕ) (at : At DrcFault) → (rules_of raw text ≡ Err at) ↔ IsRefusedAt raw text at }
{}
