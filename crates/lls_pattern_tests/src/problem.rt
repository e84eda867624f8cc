// Judgements and faults of demands by their texts. Histories are judged, and demands refused, in worked rows over the program.
use lls_problem::{DemandError, Judgement};
use std::test::Fail;

#[test]
fn judgements_and_faults_by_their_texts(rt: HostRuntime) -> Result<(), Fail> {
    let alloc = rt.alloc();
    let judgements: [(Judgement, &str); 12] = [
        (Judgement::Meets, "Meets"),
        (Judgement::Size, "Size"),
        (Judgement::Cell(0, 1, 2), "Cell 0 1 2"),
        (Judgement::Name(1, 0, 63), "Name 1 0 63"),
        (Judgement::Symmetry(3, 2, 1), "Symmetry 3 2 1"),
        (Judgement::Background(4), "Background 4"),
        (Judgement::Moved(2, -1, 5), "Moved 2 -1 5"),
        (Judgement::Rule(1, -1, 1), "Rule 1 -1 1"),
        (Judgement::Population(0, 300), "Population 0 300"),
        (Judgement::Same, "Same"),
        (Judgement::Shorter(3), "Shorter 3"),
        (Judgement::Listed(12), "Listed 12"),
    ];
    for (judgement, text) in judgements {
        assert!(rt; format!(in alloc; "{judgement}")?.as_str() == text);
    }
    let faults: [(DemandError, &str); 5] = [
        (DemandError::NotSquare(1, 3), "NotSquare 1 3"),
        (DemandError::NoGeneration(7), "NoGeneration 7"),
        (DemandError::BoundsCross(0), "BoundsCross 0"),
        (DemandError::PeriodTooLong(2), "PeriodTooLong 2"),
        (DemandError::Counters(1232896), "Counters 1232896"),
    ];
    for (fault, text) in faults {
        assert!(rt; format!(in alloc; "{fault}")?.as_str() == text);
    }
    Ok(())
}
