// The assignment that a trail is.
ghost use Rattle.std.specs.Prelude.{◌≡◌, ◌≤◌, ◌<◌, ◌+◌, pos, length, IfOk};
ghost use Rattle.lls_store.specs.Trail.{has};
ghost use Rattle.lls_solver.specs.Values.{AreValues};

use lls_base::Memory;
use lls_lit::{Lit, Var};
use lls_store::Trail;
use std::alloc::Global;

/// The value of each variable up to `vars`, false where it has none.
pub(crate) fn values_of(alloc: Global, trail: &Trail, vars: u32) -> Result<Vec<bool>, Memory>
    requires { vars ≤ trail.now.vars }
    ensures len { IfOk result (λ values. length values.items ≡ vars) }
    ensures values { IfOk result (λ values. AreValues trail.now.entries values.items) }
{
    // What holds of every trail is known from here on.
    let _level = trail.current();
    let mut values = Vec::with_capacity(alloc, vars as usize)?;
    for n in 0..vars {
        values.push(is_true(trail, n))?;
    }
    Ok(values)
}

// Whether the variable n + 1 is true.
fn is_true(trail: &Trail, n: u32) -> bool
    requires within { n < trail.now.vars }
    requires most { trail.now.vars ≤ Var.MOST }
    ensures { result ≡ has trail.now.entries (pos (n + 1)) }
{
    let var = Var::from_number(n + 1).unwrap();
    match trail.value(Lit::new(var, true)) {
        Some(value) => value,
        None => false,
    }
}
