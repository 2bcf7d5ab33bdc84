// What holds of the text of lines: each function's contract is a theorem.
ghost use Rattle.std.specs.Prelude.{◌≡◌};
ghost use Rattle.lines.specs.Laws.{WrittenReads, ReadWrites, ReadOnce, SevenDigits};

// A written line reads as the line that it is.
pub fn written_reads()
    ensures { WrittenReads }
{}

// A line that is read is the text that is written of it.
pub fn read_writes()
    ensures { ReadWrites }
{}

// A text is one line only.
pub fn read_once()
    ensures { ReadOnce }
{}

// A number is above 9,999,999 exactly where it has more than seven digits.
pub fn seven_digits()
    ensures { SevenDigits }
{}
