// Marked literals.
use lls_lit::{Lit, Marks};
use std::test::Fail;

#[test]
fn literals_are_put_in_and_taken_out(rt: HostRuntime) -> Result<(), Fail> {
    let lit = Lit::from_number(-3).ok_or("a literal")?;
    let other = lit.negated();
    let mut marks = Marks::new(rt.alloc(), 3)?;
    assert!(rt; marks.vars() == 3);
    assert!(rt; lit.var().number() <= marks.vars());
    assert!(rt; other.var().number() <= marks.vars());
    assert!(rt; !marks.has(lit));
    marks.put(lit);
    assert!(rt; marks.has(lit));
    assert!(rt; !marks.has(other));
    marks.clear();
    assert!(rt; !marks.has(lit));
    Ok(())
}
