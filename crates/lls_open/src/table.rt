// The tables of a transition whose rule is open.
ghost use Rattle.std.specs.Prelude.{◌≡◌, ◌<◌, ◌/◌, ◌^◌};
ghost use Rattle.std.specs.List.{list_any};
ghost use Rattle.lls_open.specs.Classes.{is_of};
ghost use Rattle.lls_open.specs.Formula.{is_settled_forbidden, is_class_forbidden, settled_table, class_table};

use crate::SideClass;
use lls_cube::Table;
use lls_rule::Rule;
use lls_transition::{INPUTS, WORDS};

/// The inputs of an open class's table: those of a transition, and whether the rule gives 1 at the class.
pub const OPEN_INPUTS: usize = 11;

/// The words of an open class's table.
pub const OPEN_WORDS: usize = 32;

/// The table that forbids each row whose neighbourhood is of no open class, and whose last bit isn't the low rule's successor.
pub fn settled_table(low: &Rule, classes: &[SideClass]) -> Table<INPUTS, WORDS>
    ensures { result ≡ settled_table low.now classes.now }
{
    let mut table = Table::<INPUTS, WORDS>::empty();
    for row in 0..table.row_count() {
        if is_settled_forbidden(low, classes, row) {
            table.forbid(row);
        }
    }
    table
}

/// The table that forbids each row whose neighbourhood is of the class, and whose last two bits differ.
pub fn class_table(class: SideClass) -> Table<OPEN_INPUTS, OPEN_WORDS>
    ensures { result ≡ class_table class }
{
    let mut table = Table::<OPEN_INPUTS, OPEN_WORDS>::empty();
    for row in 0..table.row_count() {
        if is_class_forbidden(class, row) {
            table.forbid(row);
        }
    }
    table
}

// Whether the row's neighbourhood is of no open class, and its last bit isn't the low rule's successor.
fn is_settled_forbidden(low: &Rule, classes: &[SideClass], row: usize) -> bool
    requires { row < 2 ^ INPUTS }
    ensures { result ≡ is_settled_forbidden low.now classes.now row }
{
    let nine = (row / 2) as u16;
    !is_of_any(classes, nine) && low.next(nine) != (row % 2 == 1)
}

// Whether a neighbourhood is of some class.
fn is_of_any(classes: &[SideClass], nine: u16) -> bool
    requires { nine < Rule.NEIGHBOURHOODS }
    ensures { result ≡ list_any (λ class. is_of class nine) classes.now }
{
    for class in classes {
        if class.contains(nine) {
            return true;
        }
    }
    false
}

// Whether the row's neighbourhood is of the class, and its last two bits differ.
fn is_class_forbidden(class: SideClass, row: usize) -> bool
    requires { row < 2 ^ OPEN_INPUTS }
    ensures { result ≡ is_class_forbidden class row }
{
    class.contains((row / 4) as u16) && (row / 2 % 2 == 1) != (row % 2 == 1)
}
