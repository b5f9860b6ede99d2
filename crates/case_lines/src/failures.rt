// Why a case has no answer but a refusal, or none.
use instruction::{Fault, Refusal};
use std::alloc::{AllocError, AllocFailed};
use std::num::ParseIntError;

#[derive(Clone, Copy, Debug)]
pub enum Failure {
    // a record, a question or a run is not accepted
    Refused(Refusal),
    // the words are those of no case, or of one that a record has no answer to
    NoCase,
    NoMemory,
}

impl From<Fault> for Failure {
    fn from(fault: Fault) -> Failure {
        Failure::Refused(fault.into())
    }
}

impl From<ParseIntError> for Failure {
    fn from(_error: ParseIntError) -> Failure {
        Failure::NoCase
    }
}

impl From<AllocError> for Failure {
    fn from(_error: AllocError) -> Failure {
        Failure::NoMemory
    }
}

impl<T: Drop> From<AllocFailed<T>> for Failure {
    fn from(_error: AllocFailed<T>) -> Failure {
        Failure::NoMemory
    }
}
