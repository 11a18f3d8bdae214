// A number in decimal digits. By hand, and not by std's formatting: the clauses say every byte, and of a number from 10^10 on the last ten digits alone.
ghost use Rattle.std.specs.Prelude.{◌<◌};
ghost use Rattle.lines.specs.Number.{digit_of, decimal_of};
ghost use Rattle.lines.specs.Sheet.{Put};

use crate::sheet::Sheet;

// The powers of ten that a number below 10^10 may reach, from the highest on; the units have their digit in any case.
const POWERS: [u64; 9] = [
    1_000_000_000,
    100_000_000,
    10_000_000,
    1_000_000,
    100_000,
    10_000,
    1_000,
    100,
    10,
];

impl Sheet<'_> {
    // The digit of a power of ten, where the number reaches it.
    fn digit(&mut self, n: u64, power: u64)
        requires { 0 < power }
        ensures { Put self.old (digit_of n power) self.new }
    {
        if power <= n {
            self.put((48 + n / power % 10) as u8);
        }
    }

    // All digits of a number below 10^10, and of a larger one the last ten.
    pub(crate) fn decimal(&mut self, n: u64)
        ensures { Put self.old (decimal_of n) self.new }
    {
        for power in POWERS {
            self.digit(n, power);
        }
        self.put((48 + n % 10) as u8);
    }
}
