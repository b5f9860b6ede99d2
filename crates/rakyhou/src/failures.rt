// Why the program ends without the answer that was asked for.
//
// A refused record or run is an answer, so it goes to standard output. Everything else
// is said on standard error, in one line: what was wrong, and what was expected.
use super::numbers::Flaw;
use super::texts::Form;
use instruction::{Fault, Refusal};
use std::alloc::{AllocError, AllocFailed};
use std::error::Error;
use std::{fmt, io};

const USAGE: &str =
    "rakyhou read PACK, rakyhou run PACK QUESTION RUN, or rakyhou walk PACK TRIALS [dense|ticked]";

const QUESTION: &str = "two hex digits to a byte, or - for no byte";

#[derive(Debug, Drop)]
pub enum Failure {
    // the words could not be read
    Words(io::Error),
    NoCommand,
    UnknownCommand(String),
    TooFewWords,
    TooManyWords,
    // the word for a kind of time
    UnknownTime(String),
    // a file
    Unreadable {
        path: String,
        error: io::Error,
        expected: &'static str,
    },
    // the question's digits
    NoHexDigit(char),
    HalfByte,
    NoDigits,
    // the lines of a run or a walk, one with its number
    NoLine(Form),
    Line(usize, Flaw, Form),
    TooManyLines,
    NoMemory,
    // the answer could not be written
    Output(io::Error),
    Refused(Refusal),
}

impl From<io::Error> for Failure {
    fn from(error: io::Error) -> Failure {
        Failure::Output(error)
    }
}

impl From<AllocError> for Failure {
    fn from(_error: AllocError) -> Failure {
        Failure::NoMemory
    }
}

impl<T: Drop> From<AllocFailed<T>> for Failure {
    fn from(_error: AllocFailed<T>) -> Failure {
        Failure::NoMemory
    }
}

impl From<Fault> for Failure {
    fn from(fault: Fault) -> Failure {
        Failure::Refused(fault.into())
    }
}

impl fmt::Display for Failure {
    fn fmt<W: fmt::Write>(&self, f: &mut fmt::Formatter<W>) -> fmt::Result {
        match self {
            Failure::Words(error) => {
                write!(
                    f,
                    "cannot read the words: {error}; expected words in UTF-8: {USAGE}"
                )
            }
            Failure::NoCommand => write!(f, "no command; expected: {USAGE}"),
            Failure::UnknownCommand(name) => {
                write!(f, "unknown command {name:?}; expected: {USAGE}")
            }
            Failure::TooFewWords => write!(f, "too few words; expected: {USAGE}"),
            Failure::TooManyWords => write!(f, "too many words; expected: {USAGE}"),
            Failure::UnknownTime(word) => {
                write!(f, "unknown kind of time {word:?}; expected: {USAGE}")
            }
            Failure::Unreadable {
                path,
                error,
                expected,
            } => { write!(f, "cannot read {path:?}: {error}; expected {expected}") }
            Failure::NoHexDigit(c) => {
                write!(f, "question: {c:?} is no hex digit; expected {QUESTION}")
            }
            Failure::HalfByte => {
                write!(f, "question: an odd number of digits; expected {QUESTION}")
            }
            Failure::NoDigits => write!(f, "question: no digit; expected {QUESTION}"),
            Failure::NoLine(form) => {
                write!(f, "{}: no line; expected {}", form.text, form.expected)
            }
            Failure::Line(number, flaw, form) => {
                write!(
                    f,
                    "{}, line {number}: {flaw}; expected {}",
                    form.text, form.expected
                )
            }
            Failure::TooManyLines => {
                write!(f, "walk: too many lines; expected at most 65535 lines")
            }
            Failure::NoMemory => write!(f, "no memory left; expected room for the run"),
            Failure::Output(error) => write!(f, "cannot write the answer: {error}"),
            Failure::Refused(refusal) => {
                let Refusal {
                    number,
                    section,
                    position,
                } = *refusal;
                write!(f, "refused {number} section {section} position {position}")
            }
        }
    }
}

impl Error for Failure {}

impl Failure {
    // Says what happened. The process ends with status 1 in any case, so a line that cannot be
    // written is let go.
    pub(super) fn tell(&self, rt: &(impl Print + Eprint)) {
        let _ = match self {
            Failure::Refused(_) => println!(rt; "{self}"),
            _ => eprintln!(rt; "rakyhou: {self}"),
        };
    }
}
