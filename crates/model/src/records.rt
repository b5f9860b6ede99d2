// A whole record.
ghost use Rattle.model.specs.Reading.{layouts};
ghost use Rattle.model.specs.Promise.{Reads};

use super::layout::Model;
use super::sections::{Left, read_sections};
use instruction::Fault;
use sizes::read_sizes;

// The model of a record, or the first fault from the left.
pub fn read(bytes: &[u8]) -> Result<Model, Fault>
    ensures { Reads bytes.now (layouts result) }
{
    let sizes = read_sizes(bytes)?;
    read_sections(Left {
        bytes: &bytes[sizes.counts().len() + 2..],
        end: bytes.len(),
        sizes: &sizes,
    })
}
