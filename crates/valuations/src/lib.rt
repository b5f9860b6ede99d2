// Valuations: one number for the values of all variables.
//
// Valuations are numbered in mixed radix, the first variable most significant,
// from 0 up to the product of the numbers of values. Both ways are linear in
// the number of variables, and each is the other's inverse.
#![tactic(auto)]

ghost use Rattle.std.specs.Prelude.{◌≡◌};
ghost use Rattle.instruction.specs.Counts.{value_counts};
ghost use Rattle.instruction.specs.Sizes.{product};
ghost use Rattle.valuations.specs.Radix.{Values, Numbers};

use instruction::Sizes;

// How many valuations there are.
pub fn valuations(sizes: &Sizes) -> u16
    ensures { result ≡ product (value_counts sizes.now) }
{
    sizes.counts().iter().map(|n| u16::from(*n)).product()
}

// The value of each variable in a valuation, by the variable's index; 0 where there is none. An array,
// since nothing here allocates.
// Of a number that is no valuation, the values of its remainder by the number of valuations.
pub fn values(sizes: &Sizes, valuation: u16) -> [u8; 8]
    ensures { Values (value_counts sizes.now) valuation result }
{
    let mut values = [0u8; 8];
    let mut left = valuation;
    // by index: what is written through `iter_mut()` from the last on is not known behind the loop
    'variables: for (i, n) in sizes.counts().iter().enumerate().rev() {
        let n = u16::from(*n);
        values[i] = (left % n) as u8;
        left /= n;
    }
    values
}

// The number of the valuation with these values, or nothing where one is out of its range.
pub fn number(sizes: &Sizes, values: [u8; 8]) -> Option<u16>
    ensures { Numbers (value_counts sizes.now) values result }
{
    let mut number: u16 = 0;
    'variables: for (n, x) in sizes.counts().iter().zip(&values) {
        if x >= n {
            return None;
        }
        number = number * u16::from(*n) + u16::from(*x);
    }
    Some(number)
}
