// The sizes of a record: the numbers of values in section 1, and the number of
// clocks that opens section 2.
//
// They come first since every formula is checked against them. Each number of
// values is from 2 to 16, and their product, the number of valuations, is kept
// within 1,024 as it grows.
#![tactic(auto)]

ghost use Rattle.std.specs.Prelude.{◌≡◌, ◌+◌, ◌≤◌, length, IfOk};
ghost use Rattle.sizes.specs.Promise.{Measures};
ghost use Rattle.sizes.specs.Reading.{counted, variables, clock_count};
ghost use Rattle.sizes.specs.Measures.{declared, measures};

use instruction::{Fault, Section, Sizes};

const MOST_VARIABLES: u8 = 8;

const FEWEST_VALUES: u8 = 2;

const MOST_VALUES: u8 = 16;

const MOST_VALUATIONS: u16 = 1024;

const MOST_CLOCKS: u8 = 4;

// The product with one number of values more.
fn product_with(product: u16, values: u8, at: usize) -> Result<u16, Fault>
    requires { product ≤ 1024 }
    ensures { result ≡ counted at product values }
{
    if !(FEWEST_VALUES..=MOST_VALUES).contains(&values) {
        return Err(Fault::ValueCount(at));
    }
    let product = product * u16::from(values);
    if product > MOST_VALUATIONS {
        return Err(Fault::Product(at));
    }
    Ok(product)
}

// Section 1: the part of the record that has the numbers of values.
fn read_counts(bytes: &[u8]) -> Result<&[u8], Fault>
    ensures fits { IfOk result (λ ns. (length ns.now ≤ 8) × (length ns.now + 1 ≤ length bytes.now)) }
    ensures is { declared result ≡ variables bytes.now }
{
    let [variables, rest @ ..] = bytes else {
        return Err(Fault::Ended(Section::Variables, 0));
    };
    if *variables > MOST_VARIABLES {
        return Err(Fault::TooManyVariables);
    }
    let wanted = *variables as usize;
    let listed = &rest[..rest.len().min(wanted)];
    let mut product: u16 = 1;
    'variables: for (i, values) in listed.iter().enumerate() {
        product = product_with(product, *values, i + 1)?;
    }
    if listed.len() < wanted {
        return Err(Fault::Ended(Section::Variables, bytes.len()));
    }
    Ok(listed)
}

// The number of clocks, at the front of what is left of a record of `end` bytes.
fn read_clock_count(left: &[u8], end: usize) -> Result<u8, Fault>
    ensures fits { IfOk result (λ n. (n ≤ 4) × (1 ≤ length left.now)) }
    ensures is { result ≡ clock_count end left.now }
{
    let [clocks, ..] = left else {
        return Err(Fault::Ended(Section::Clocks, end));
    };
    if *clocks > MOST_CLOCKS {
        return Err(Fault::TooManyClocks(end.saturating_sub(left.len())));
    }
    Ok(*clocks)
}

// The sizes; the formulas begin behind them.
pub fn read_sizes(bytes: &[u8]) -> Result<Sizes, Fault>
    ensures fits { IfOk result (λ z. z.variables + 2 ≤ length bytes.now) }
    ensures is { Measures bytes.now (measures result) }
{
    let listed = read_counts(bytes)?;
    let clocks = read_clock_count(&bytes[listed.len() + 1..], bytes.len())?;
    // eight places and how many are used: there is no heap
    let mut counts = [0u8; 8];
    counts[..listed.len()].copy_from_slice(listed);
    Ok(Sizes {
        counts,
        variables: listed.len() as u8,
        clocks,
    })
}
