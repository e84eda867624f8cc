// The classes that two rules leave open.
ghost use Rattle.std.specs.Prelude.{◌≡◌, ◌<◌, ◌++◌, filter, IfOk, OnOk};
ghost use Rattle.lls_open.specs.Classes.{is_of, gives, is_open, side_classes, open_classes};

use lls_base::Memory;
use lls_hensel::{Class, all_classes, class_at};
use lls_rule::Rule;
use std::alloc::Global;

// The bit of the centre in a neighbourhood's number.
const CENTRE_BIT: u16 = 4;

/// The neighbourhoods of a class of eight neighbours round a dead centre, or round a live one.
#[derive(Clone, Copy, Debug, PartialEq, Eq)]
pub struct SideClass {
    /// Whether the centre is live, so that a cell survives there and isn't born.
    pub survival: bool,
    pub class: Class,
}

impl SideClass {
    /// Whether a neighbourhood is one of these.
    pub fn contains(self, nine: u16) -> bool
        requires { nine < Rule.NEIGHBOURHOODS }
        ensures { result ≡ is_of self nine }
    {
        let is_live = nine >> CENTRE_BIT & 1 == 1;
        self.survival == is_live && self.class == class_at(nine)
    }

    // Whether a rule gives 1 at one of them.
    fn is_given(self, rule: &Rule) -> bool
        ensures { result ≡ gives rule.now self }
    {
        for nine in 0..Rule::NEIGHBOURHOODS {
            if self.contains(nine) && rule.next(nine) {
                return true;
            }
        }
        false
    }

    // Whether the low rule gives 0 there and the high one 1.
    fn is_open(self, low: &Rule, high: &Rule) -> bool
        ensures { result ≡ is_open low.now high.now self }
    {
        !self.is_given(low) && self.is_given(high)
    }
}

// Pushes the open classes of a side.
fn push_side(
    classes: &mut Vec<SideClass>,
    low: &Rule,
    high: &Rule,
    survival: bool,
) -> Result<(), Memory>
    ensures { OnOk result (classes.new.items ≡ classes.old.items ++ filter (is_open low.now high.now) (side_classes survival)) }
{
    for class in all_classes() {
        let class = SideClass {
            survival,
            class: *class,
        };
        if class.is_open(low, high) {
            classes.push(class)?;
        }
    }
    Ok(())
}

/// The classes at which the low rule gives 0 and the high one 1: those of birth before those of survival, then by count, then
/// by letter in alphabetical order.
pub fn open_classes(alloc: Global, low: &Rule, high: &Rule) -> Result<Vec<SideClass>, Memory>
    ensures { IfOk result (λ classes. classes.items ≡ open_classes low.now high.now) }
{
    let mut classes = Vec::new(alloc);
    push_side(&mut classes, low, high, false)?;
    push_side(&mut classes, low, high, true)?;
    Ok(classes)
}
