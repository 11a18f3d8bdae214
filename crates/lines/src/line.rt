// The lines of a dump.
ghost use Rattle.std.specs.Prelude.{ℕ, ◌≡◌};
ghost use Rattle.wire.specs.Flags.{bit};
ghost use Rattle.lines.specs.Line.{line_of, word_of, words_of};
ghost use Rattle.lines.specs.Sheet.{Put};

use crate::sheet::Sheet;

// What a line can show: a number, or a flag, as 1 or 0.
pub trait Number {
    // The number that is shown.
    ghost number_of: { Self → ℕ };

    // That number, in the type of the widest.
    fn to_u64(self) -> u64
        ensures { result ≡ number_of self };
}

impl Number for u8 {
    ghost number_of = { λ n. n };

    fn to_u64(self) -> u64 {
        u64::from(self)
    }
}

impl Number for u32 {
    ghost number_of = { λ n. n };

    fn to_u64(self) -> u64 {
        u64::from(self)
    }
}

impl Number for u64 {
    ghost number_of = { λ n. n };

    fn to_u64(self) -> u64 {
        self
    }
}

impl Number for bool {
    ghost number_of = { bit };

    // As the byte that it is, 1 or 0.
    fn to_u64(self) -> u64 {
        u8::from(self).to_u64()
    }
}

impl Sheet<'_> {
    // A name, a space, a number, a newline. Of a number from 10^10 on only the last ten digits are put.
    pub fn line<N: Number>(&mut self, name: &[u8], value: N)
        ensures { Put self.old (line_of name.now (N.number_of value)) self.new }
    {
        self.copy(name);
        self.put(b' ');
        self.decimal(value.to_u64());
        self.put(b'\n');
    }

    // A space and a number.
    fn word(&mut self, n: u64)
        ensures { Put self.old (word_of n) self.new }
    {
        self.put(b' ');
        self.decimal(n);
    }

    // Some numbers, one after the other, a space before each. Of a number from 10^10 on only the last ten digits are put.
    pub fn words(&mut self, numbers: &[usize])
        ensures { Put self.old (words_of numbers.now) self.new }
    {
        for n in numbers {
            self.word(*n as u64);
        }
    }
}
