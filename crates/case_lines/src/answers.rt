// Answers as text, their words apart by single blanks.
//
// Where no memory is left an answer stays too short, and so differs from the expected one.
use instruction::Refusal;
use std::alloc::Global;
use std::fmt;
use std::fmt::Write;

#[derive(Drop)]
pub struct Answer {
    text: String,
}

impl Answer {
    // An answer with no word yet.
    pub(super) fn new(heap: Global) -> Answer {
        Answer {
            text: String::new(heap),
        }
    }

    // Adds a text right behind what is said.
    pub(super) fn add(&mut self, text: &str) {
        let _ = self.text.push_str(text);
    }

    // Adds a word.
    pub(super) fn say<D: fmt::Display + Drop>(&mut self, word: D) {
        if !self.text.is_empty() {
            let _ = self.text.push(' ');
        }
        let _ = write!(self.text, "{word}");
    }

    // Adds an item, with a comma between it and what is said.
    pub(super) fn list<D: fmt::Display + Drop>(&mut self, item: D) {
        let _ = write!(self.text, ",{item}");
    }

    // Adds a refusal right behind what is said.
    pub(super) fn refuse(&mut self, refusal: Refusal) {
        self.add("refused");
        self.say(refusal.number);
        self.say(refusal.section);
        self.say(refusal.position);
    }

    pub(super) fn is(&self, text: &str) -> bool {
        self.text.as_str() == text
    }

    pub(super) fn is_empty(&self) -> bool {
        self.text.is_empty()
    }
}

impl fmt::Display for Answer {
    fn fmt<W: fmt::Write>(&self, f: &mut fmt::Formatter<W>) -> fmt::Result {
        f.write_str(self.text.as_str())
    }
}

// An answer of one word.
pub(super) fn said<D: fmt::Display + Drop>(heap: Global, word: D) -> Answer {
    let mut answer = Answer::new(heap);
    answer.say(word);
    answer
}

// An answer of a word for each item.
pub(super) fn said_all<D: fmt::Display + Copy>(heap: Global, words: &[D]) -> Answer {
    let mut answer = Answer::new(heap);
    for word in words {
        answer.say(*word);
    }
    answer
}

pub(super) fn yes_or_no(holds: bool) -> &'static str {
    if holds { "yes" } else { "no" }
}
