// Powers worked out by hand, and the greatest that fit.
use lls_counting::deciding_budget;
use std::test::Fail;

#[test]
fn powers(rt: HostRuntime) -> Result<(), Fail> {
    let rows: [(u32, bool, Option<u64>); 9] = [
        (0, true, Some(1)),
        (0, false, Some(1)),
        (1, true, Some(3)),
        (2, true, Some(9)),
        (2, false, Some(81)),
        (4, true, Some(81)),
        // 3 to the power of 40 has 64 bits, and 3 to the power of 41 has 65.
        (40, true, Some(12_157_665_459_056_928_801)),
        (41, true, None),
        (21, false, None),
    ];
    for (vars, keep_all, budget) in rows {
        assert!(rt; deciding_budget(vars, keep_all) == budget);
    }
    Ok(())
}
