// What is written is read again.
ghost use Rattle.std.specs.Prelude.{◌≡◌, ℕ, List, ℤ, FitsSigned};
ghost use Rattle.std.specs.Int.{w64, w128};
ghost use Rattle.std.specs.List.{AllByRecursion};
ghost use Rattle.text_scan.specs.Decimal.{decimal};
ghost use Rattle.text_scan.specs.Lines.{lines_of};
ghost use Rattle.text_scan.specs.Numbers.{number_of, wide_of};
ghost use Rattle.text_scan.specs.Words.{words_of};
ghost use Rattle.text_scan.specs.Written.{IsLine, IsWord, line_of, text_of};

/// A law: the lines of a written text are those that it was made of.
pub fn reads_written_lines()
    ensures { (lines : List (List ℕ))
        → AllByRecursion IsLine lines → lines_of (text_of lines) ≡ lines }
{}

/// A law: a written line is a line, and its words are those that it was made of.
pub fn reads_written_words()
    ensures line { (words : List (List ℕ))
        → AllByRecursion IsWord words → IsLine (line_of words) }
    ensures words { (words : List (List ℕ))
        → AllByRecursion IsWord words → words_of (line_of words) ≡ words }
{}

/// A law: the decimal text of a number is a word, and it is read as the number.
pub fn reads_written_numbers()
    ensures word { (z : ℤ) → IsWord (decimal z) }
    ensures number { (z : ℤ) → FitsSigned w64 z → number_of (decimal z) ≡ Ok z }
    ensures wide { (z : ℤ) → FitsSigned w128 z → wide_of (decimal z) ≡ Ok z }
{}
