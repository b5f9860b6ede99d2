// Dense time: time passes by any fraction.
//
// A place says of each clock its whole part and where its fraction stands among
// those of the others; a clock above its ceiling is over. All states of a place
// show the same to every formula, so to go through all places is to go through all
// timings. To elapse is to wait until some clock stands otherwise.
#![tactic(auto)]

mod kind;
mod timings;
mod trials;

pub use kind::Dense;
