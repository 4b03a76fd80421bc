//! The numbers below a thousand, as they stand in a line. Most numbers of a line are among them, so each is written
//! once and then copied.
ghost use Rattle.std.specs.Prelude.{◌<◌};
ghost use Rattle.cq_report.specs.Numerals.{IsNumeral};

use std::marker::Model;

/// So many numbers have a numeral.
pub const NUMERALS: usize = 1000;

/// The digits of a number below a thousand and a blank behind them: the first bytes, so many as `long` says. The others
/// say nothing.
#[derive(Clone, Copy)]
pub struct Numeral {
    pub first: u8,
    pub second: u8,
    pub third: u8,
    pub fourth: u8,
    pub long: u32,
}

/// The numeral of each number below a thousand. Contracts see them in order.
#[derive(Drop)]
pub struct Numerals {
    rows: [Numeral; NUMERALS],
}

impl Model for Numerals {
    ghost use Rattle.std.specs.Prelude.{List};
    ghost use Rattle.cq_report.specs.declared.numerals.Numeral.{Numeral};
    ghost use Rattle.cq_report.specs.Numerals.{AreNumerals};

    ghost Value = { List Numeral };

    ghost view = { λ n. n.rows };

    ghost invariant = { λ n. AreNumerals n.rows };
}

impl Numerals {
    /// All of them, written anew.
    pub fn new() -> Numerals {
        let mut rows = [numeral_of(0); NUMERALS];
        'numbers: for number in 0..NUMERALS {
            rows[number] = numeral_of(number);
        }
        Numerals { rows }
    }

    /// The numeral of a number below a thousand.
    pub fn of(&self, number: usize) -> Numeral
        requires { number < 1000 }
        ensures { IsNumeral number result }
    {
        self.rows[number]
    }
}

#[tactic(auto, using(crate::proofs::Hundreds::numeral_steps))]
fn numeral_of(number: usize) -> Numeral
    requires { number < 1000 }
    ensures { IsNumeral number result }
{
    let last = b'0' + (number % 10) as u8;
    if number < 10 {
        return Numeral {
            first: last,
            second: b' ',
            third: b' ',
            fourth: b' ',
            long: 2,
        };
    }
    let tens = b'0' + (number / 10 % 10) as u8;
    if number < 100 {
        return Numeral {
            first: tens,
            second: last,
            third: b' ',
            fourth: b' ',
            long: 3,
        };
    }
    Numeral {
        first: b'0' + (number / 100) as u8,
        second: tens,
        third: last,
        fourth: b' ',
        long: 4,
    }
}
