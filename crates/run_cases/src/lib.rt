// What the run check answers, as tables of runs and answers.
//
// The rows are worked out by hand from what a run is. The module `tried` puts rows to the check,
// `records` has the tables that they run in; the other modules hold the rows by subject.
#![tactic(auto)]

#[cfg(test)]
mod delays;
#[cfg(test)]
mod discrete;
#[cfg(test)]
mod packs;
#[cfg(test)]
mod records;
#[cfg(test)]
mod refusals;
#[cfg(test)]
mod tried;
