//! Laws of texts that are read line by line, or part by part, for every reader.
ghost use Rattle.std.specs.Prelude.{◌≡◌, ◌↔◌, ◌++◌, ℕ, List, Result, Ok, Err, fold};
ghost use Rattle.text_form.specs.declared.reading.At.{At as Place};
ghost use Rattle.text_form.specs.Folds.{first_fault_or};
ghost use Rattle.text_form.specs.FirstFaults.{IsFirstFault};
ghost use Rattle.text_form.specs.SaidLines.{saying, AreSaid};
ghost use Rattle.text_form.specs.Parts.{first_faulty_part_or, IsFirstFaultyPart};

use crate::reading::LineReader;

/// Lines are refused exactly at the first faulty one, with its fault: those before it are without fault, and it has the fault, read in
/// the state that they leave.
pub fn lines_are_refused_at_the_first_faulty_one<R: LineReader>()
    ensures { (context : R.Context) (start : R) (lines : List (List ℕ)) (at : Place R.Fault) →
        (first_fault_or (R.step context) 1 start lines ≡ Err at) ↔ IsFirstFault (R.step context) 1 start lines at }
{}

/// A form of lines: what a line of some number says by itself, or its first fault, and how what it says is added to what was said.
pub trait LineForm {
    /// What a line says.
    type Said;

    type Fault;

    ghost says: { ℕ → List ℕ → Result Self.Said Self.Fault };

    ghost add: { Self → Self.Said → Self };
}

/// Lines of a form are read exactly where each of them says something, and give what these things add up to.
pub fn lines_say_what_they_give<R: LineForm>()
    ensures { (start last : R) (lines : List (List ℕ)) →
        (first_fault_or (saying R.says R.add) 1 start lines ≡ Ok last)
        ↔ ((said : List R.Said) × AreSaid R.says 1 lines said × (fold R.add start said ≡ last)) }
{}

/// A form of parts that know their line: what each makes of a state, or its fault; and what holds of a state.
pub trait PartForm {
    /// A part of a text.
    type Part;

    type Fault;

    ghost line_of: { Self.Part → ℕ };

    ghost step: { Self → Self.Part → Result Self Self.Fault };

    ghost holds: { Self → Type 0 };
}

/// Parts are read one after the other, those behind from the state that those before leave; what each part keeps, a text keeps; and a
/// text is refused exactly at the line of its first faulty part, with its fault.
pub fn parts_are_refused_at_the_first_faulty_one<R: PartForm>()
    ensures appended { (start next : R) (before after : List R.Part) →
        first_faulty_part_or R.line_of R.step start before ≡ Ok next →
        first_faulty_part_or R.line_of R.step start (before ++ after) ≡ first_faulty_part_or R.line_of R.step next after }
    ensures kept { ((state : R) (part : R.Part) (next : R) → R.holds state → R.step state part ≡ Ok next → R.holds next) →
        (start last : R) (parts : List R.Part) → R.holds start →
        first_faulty_part_or R.line_of R.step start parts ≡ Ok last → R.holds last }
    ensures refused { (start : R) (parts : List R.Part) (at : Place R.Fault) →
        (first_faulty_part_or R.line_of R.step start parts ≡ Err at) ↔ IsFirstFaultyPart R.line_of R.step start parts at }
{}
