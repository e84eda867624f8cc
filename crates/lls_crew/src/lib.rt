//! Several searchers that take turns over one log: what one of them learns is there for the others, whichever order the turns have.
#![tactic(auto)]

mod forgetting;
mod searchers;
mod searching;
mod stage;
mod starting;
mod taking;
mod turns;

pub use searchers::{Crew, MOST_SEARCHERS, Turned};
pub use searching::crew;
pub use turns::Turns;
