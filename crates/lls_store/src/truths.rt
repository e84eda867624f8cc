// The values of variables.
ghost use Rattle.std.specs.Prelude.{◌≡◌, ◌<◌, ◌≤◌, ◌-◌, true, Some, None, IfOk, length, replicate, slice_index_or, slice_set};
ghost use Rattle.lls_lit.specs.Literal.{IsLiteral, is_positive, variable_of};
ghost use Rattle.lls_store.specs.TruthTable.{answer_for, is_turned, value_in};

use lls_base::Memory;
use lls_lit::Lit;
use std::alloc::Global;
use std::marker::Model;

// Whether a literal is true. What is asked for first stands first, so that it is told by one test.
#[derive(Clone, Copy, Debug, PartialEq, Eq)]
pub(crate) enum Truth {
    True,
    False,
    Unset,
}

// Whether each literal is true, a byte for each at its place: one read tells it, and no sign is looked at.
#[derive(Debug, Drop)]
pub(crate) struct Values {
    truths: Vec<Truth>,
}

impl Model for Values {
    ghost use Rattle.std.specs.Prelude.{◌≡◌, Bool, true, List, Option};
    ghost use Rattle.lls_store.specs.TruthTable.{values_in, are_paired};

    ghost Value = { List (Option Bool) };

    ghost view = { λ v. values_in v.truths.items };

    ghost invariant = { λ v. are_paired v.truths.items ≡ true };
}

impl Values {
    // No variable of so many has a value.
    pub(crate) fn new(alloc: Global, vars: u32) -> Result<Values, Memory>
        ensures { IfOk result (λ values. values ≡ replicate vars None) }
    {
        let truths = vec![in alloc; Truth::Unset; 2 * vars as usize]?;
        Ok(Values { truths })
    }

    // Whether a literal is true or false: None where its variable has no value.
    #[inline]
    pub(crate) fn of(&self, lit: Lit) -> Option<bool>
        requires { variable_of lit ≤ length self.now }
        ensures answer { result ≡ answer_for (is_positive lit) (slice_index_or self.now (variable_of lit - 1) None) }
        ensures literal { IsLiteral lit }
    {
        match self.truths[lit.index()] {
            Truth::Unset => None,
            Truth::True => Some(true),
            Truth::False => Some(false),
        }
    }

    // Makes a literal true.
    #[inline]
    pub(crate) fn set(&mut self, lit: Lit)
        requires { variable_of lit ≤ length self.old }
        ensures { self.new ≡ slice_set self.old (variable_of lit - 1) (Some (is_positive lit)) }
    {
        let place = lit.var().index();
        if lit.is_positive() {
            self.write(place, Truth::True, Truth::False);
        } else {
            self.write(place, Truth::False, Truth::True);
        }
    }

    // Takes the value of a literal's variable back.
    #[inline]
    pub(crate) fn clear(&mut self, lit: Lit)
        requires { variable_of lit ≤ length self.old }
        ensures { self.new ≡ slice_set self.old (variable_of lit - 1) None }
    {
        self.write(lit.var().index(), Truth::Unset, Truth::Unset);
    }

    // Writes whether the literals of a variable are true, counted from 0.
    #[inline]
    fn write(&mut self, place: usize, straight: Truth, turned: Truth)
        requires within { place < length self.old }
        requires turned { is_turned straight turned ≡ true }
        ensures { self.new ≡ slice_set self.old place (value_in straight) }
    {
        self.truths[2 * place] = straight;
        self.truths[2 * place + 1] = turned;
    }
}
