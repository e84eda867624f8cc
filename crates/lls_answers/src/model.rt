// The text of an assignment.
ghost use Rattle.std.specs.Prelude.{◌≡◌, ◌≤◌, ◌<◌, ◌++◌, ◌+◌, length, IfOk, OnOk};
ghost use Rattle.lls_answers.specs.ModelText.{model_text, number_text, true_literal};

use itoa::Buffer;
use lls_base::Memory;
use lls_cnf::Assignment;
use lls_lit::Var;
use std::alloc::Global;

// How many numbers a line holds.
const NUMBERS_A_LINE: usize = 10;

/// The text of an assignment that satisfies a formula, as the SAT competitions ask for it.
pub fn print_model(alloc: Global, assignment: &Assignment) -> Result<Vec<u8>, Memory>
    requires { length assignment.now ≤ Var.MOST }
    ensures { IfOk result (λ text. text.items ≡ model_text assignment.now) }
{
    let values = assignment.values();
    let mut text = Vec::from_slice(alloc, b"s SATISFIABLE\nv")?;
    for n in 0..values.len() {
        push_number(&mut text, n, true_literal(n, values[n]))?;
    }
    push_number(&mut text, values.len(), 0)?;
    text.push(b'\n')?;
    Ok(text)
}

// The number of the literal of the variable n + 1 that is true where the variable has this value.
fn true_literal(n: usize, value: bool) -> i32
    requires { n < Var.MOST }
    ensures { result ≡ true_literal n value }
{
    let variable = n as i32 + 1;
    if value { variable } else { -variable }
}

// Puts a number behind n others.
fn push_number(text: &mut Vec<u8>, n: usize, number: i32) -> Result<(), Memory>
    ensures { OnOk result (text.new.items ≡ text.old.items ++ number_text n number) }
{
    if n > 0 && n % NUMBERS_A_LINE == 0 {
        text.extend_from_slice(b"\nv")?;
    }
    text.push(b' ')?;
    text.extend_from_slice(Buffer::new().format(number).as_bytes())?;
    Ok(())
}
