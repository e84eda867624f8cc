//! Rule texts in Hensel notation: isotropic rules by classes of neighbourhoods.
#![tactic(auto)]

mod class;
mod ends;
mod group;
mod nine;
mod print;
mod read;

pub use class::{Class, all_classes, class_at, class_of};
pub use ends::{first_crossing, first_loose_background};
pub use print::{PrintRuleError, is_isotropic, print_rule};
pub use read::{RuleError, read_rule};
