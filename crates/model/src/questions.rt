// A question: formula bytes without a count, with positions of their own.
ghost use Rattle.instruction.specs.Counts.{value_counts};
ghost use Rattle.model.specs.Questions.{Asks};

use super::sections::LONGEST_FORMULA;
use formula::accept;
use instruction::{Fault, Section, Sizes};

// Whether the bytes are a question to a record of these sizes.
pub fn read_question(bytes: &[u8], sizes: &Sizes) -> Result<(), Fault>
    ensures { Asks (value_counts sizes.now) sizes.now.clocks bytes.now result }
{
    if bytes.len() > LONGEST_FORMULA {
        return Err(Fault::TooLong(Section::Question, 0));
    }
    accept(bytes, bytes.len(), sizes, Section::Question)
}
