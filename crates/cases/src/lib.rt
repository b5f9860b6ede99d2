// What the readers of records and questions answer, as tables of bytes and answers, and how much room a place
// takes.
//
// The rows are worked out by hand from the record format. The module `tried` puts bytes to a
// reader; the other modules hold the tables by subject.
#![tactic(auto)]

#[cfg(test)]
mod formulas;
#[cfg(test)]
mod limits;
#[cfg(test)]
mod numbers;
#[cfg(test)]
mod parts;
#[cfg(test)]
mod places;
#[cfg(test)]
mod records;
#[cfg(test)]
mod tried;
