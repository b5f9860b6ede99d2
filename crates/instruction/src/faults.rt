// What can be wrong with a record, a question or a run.
//
// Every level of the reader answers with this one enum, so a fault found in an
// instruction reaches the caller as it was found. A case holds the section and
// the position where they are not always the same. A `Refusal` has the
// three numbers that support looks up.
ghost use Rattle.std.specs.Prelude.{◌≡◌};
ghost use Rattle.instruction.specs.Faults.{refusal, told};

use super::sections::Section;

#[derive(Clone, Copy, Debug, PartialEq, Eq)]
pub enum Fault {
    // the record ends before a byte that is due
    Ended(Section, usize),
    // more than 8 variables
    TooManyVariables,
    // a number of values outside 2 to 16
    ValueCount(usize),
    // more than 1,024 valuations
    Product(usize),
    // more than 4 clocks
    TooManyClocks(usize),
    // a formula of more than 2,000 bytes
    TooLong(Section, usize),
    // not one of the twelve marks
    UnknownMark(Section, usize),
    // a mark that this section does not allow
    Barred(Section, usize),
    // an instruction that passes the formula's end
    CutShort(Section, usize),
    // a variable or a clock that is not declared
    Undeclared(Section, usize),
    // not a value of the variable, or a constant above 250
    OutOfRange(Section, usize),
    // too few operands, a 33rd waiting value, or not one value left
    Waiting(Section, usize),
    // bytes after the last section
    Trailing(usize),
    // a run with a number out of range: 0, or the index of its first such step
    RunNumbers(usize),
}

// A fault as numbers.
#[derive(Clone, Copy, Debug, PartialEq, Eq)]
pub struct Refusal {
    pub number: u8,
    pub section: u8,
    pub position: usize,
}

impl Refusal {
    fn at(number: u8, section: Section, position: usize) -> Refusal
        ensures { result ≡ told number section position }
    {
        Refusal {
            number,
            section: section.into(),
            position,
        }
    }
}

impl From<Fault> for Refusal {
    ghost from_gives = { λ x r. r ≡ refusal x };

    fn from(fault: Fault) -> Refusal {
        match fault {
            Fault::Ended(section, at) => Refusal::at(1, section, at),
            Fault::TooManyVariables => Refusal::at(2, Section::Variables, 0),
            Fault::ValueCount(at) => Refusal::at(3, Section::Variables, at),
            Fault::Product(at) => Refusal::at(4, Section::Variables, at),
            Fault::TooManyClocks(at) => Refusal::at(5, Section::Clocks, at),
            Fault::TooLong(section, at) => Refusal::at(6, section, at),
            Fault::UnknownMark(section, at) => Refusal::at(7, section, at),
            Fault::Barred(section, at) => Refusal::at(8, section, at),
            Fault::CutShort(section, at) => Refusal::at(9, section, at),
            Fault::Undeclared(section, at) => Refusal::at(10, section, at),
            Fault::OutOfRange(section, at) => Refusal::at(11, section, at),
            Fault::Waiting(section, at) => Refusal::at(12, section, at),
            Fault::Trailing(at) => Refusal::at(13, Section::Urgent, at),
            Fault::RunNumbers(step) => Refusal {
                number: 18,
                section: 0,
                position: step,
            },
        }
    }
}
