// Lines into bytes.
ghost use Rattle.std.specs.Prelude.{◌≡◌, ◌<◌, ◌≤◌, [], ◌∷◌, ◌++◌, length, decimal};
ghost use Rattle.lines.specs.Text.{tail_text};
ghost use Rattle.lines.specs.Pages.{Adds, said_of};
ghost use Rattle.lines.specs.Said.{line_text};

use crate::line::{Line, WrittenFitting};
use crate::page::Page;
use itoa::Buffer;

impl Page<'_> {
    // Appends a line with its end.
    pub fn line(&mut self, line: Line<WrittenFitting>)
        ensures { Adds self.old self.new (line_text (said_of line.entry) ++ 10 ∷ []) }
    {
        self.text(line);
        self.byte(b'\n');
    }

    // Appends a line without its end.
    fn text(&mut self, line: Line<WrittenFitting>)
        ensures { Adds self.old self.new (line_text (said_of line.entry)) }
    {
        match line {
            Line::Places { n } => self.kind(b'P', &[n]),
            Line::Ducts { m } => self.kind(b'D', &[m]),
            Line::Duct(row) => self.kind(b'd', &[row.first, row.second, row.length]),
            Line::Fittings { k } => self.kind(b'F', &[k]),
            Line::Fitting(fitting) => self.fitting(fitting),
        }
    }

    // Appends a letter and numbers.
    fn kind(&mut self, letter: u8, numbers: &[u32])
        ensures { Adds self.old self.new (letter ∷ tail_text numbers.now) }
    {
        self.byte(letter);
        self.numbers(numbers);
    }

    // Appends a fitting: its number, how many places it has, and the places.
    fn fitting(&mut self, fitting: WrittenFitting)
        ensures { Adds self.old self.new (102 ∷ tail_text (fitting.entry.number ∷ length fitting.entry.places.now ∷ fitting.entry.places.now)) }
    {
        self.byte(b'f');
        self.next(u64::from(fitting.number));
        self.next(fitting.places.len() as u64);
        self.numbers(fitting.places);
    }

    // Appends numbers, each with one blank before it.
    fn numbers(&mut self, numbers: &[u32])
        ensures { Adds self.old self.new (tail_text numbers.now) }
    {
        for n in numbers {
            self.next(u64::from(*n));
        }
    }

    // Appends a blank and a number.
    fn next(&mut self, n: u64)
        ensures { Adds self.old self.new (32 ∷ decimal n) }
    {
        self.byte(b' ');
        self.number(n);
    }

    // Appends the decimal of a number.
    fn number(&mut self, n: u64)
        ensures { Adds self.old self.new (decimal n) }
    {
        for digit in Buffer::new().format(n).as_bytes() {
            self.byte(*digit);
        }
    }

    // Appends a byte where there is room.
    fn byte(&mut self, byte: u8)
        ensures { Adds self.old self.new (byte ∷ []) }
    {
        if self.out.len() < self.out.capacity() {
            self.out.push_reserved(byte);
        }
        self.count = self.count.saturating_add(1);
    }
}
