// The table of a rule's transitions.
ghost use Rattle.std.specs.Prelude.{◌≡◌, ◌<◌, ◌^◌, map, length};
ghost use Rattle.lls_transition.specs.Transition.{is_forbidden, table_of};

use lls_cube::Table;
use lls_rule::Rule;

/// The inputs of a transition: nine cells from top left to bottom right, and the middle one's next value.
pub const INPUTS: usize = 10;

/// The words of a transition's table.
pub const WORDS: usize = 16;

/// The table that forbids each row whose last bit isn't the rule's successor of the nine before it.
pub fn table_of(rule: &Rule) -> Table<INPUTS, WORDS>
    ensures { result ≡ table_of rule.now }
{
    let mut table = Table::<INPUTS, WORDS>::empty();
    for row in 0..table.row_count() {
        if is_forbidden(rule, row) {
            table.forbid(row);
        }
    }
    table
}

// Whether the row's last bit isn't the rule's successor of the nine before it.
fn is_forbidden(rule: &Rule, row: usize) -> bool
    requires { row < 2 ^ INPUTS }
    ensures { result ≡ is_forbidden rule.now row }
{
    rule.next((row / 2) as u16) != (row % 2 == 1)
}
