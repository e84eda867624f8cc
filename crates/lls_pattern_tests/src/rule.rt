// Rules by counts of live neighbours, worked by hand.
use lls_rule::Rule;

#[test]
fn answers_by_counts(rt: HostRuntime) {
    let life = Rule::from_counts(0b1000, 0b1100);
    for (nine, live) in [
        (0, false),
        (0b000_000_011, false),
        (0b111_000_000, true),
        (0b101_000_101, false),
        (0b000_010_000, false),
        (0b000_011_000, false),
        (0b010_010_010, true),
        (0b001_011_001, true),
        (0b101_010_101, false),
        (0b111_111_111, false),
    ] {
        assert!(rt; nine < Rule::NEIGHBOURHOODS);
        assert!(rt; life.next(nine) == live, "at {nine}");
    }
}

#[test]
fn background_blinks_stays_or_is_dead(rt: HostRuntime) {
    for (birth, survive, first) in [
        (0b1000, 0b1100, [false, false, false, false]),
        (0b1, 0, [false, true, false, true]),
        (0b1, 0b1_0000_0000, [false, true, true, true]),
    ] {
        let rule = Rule::from_counts(birth, survive);
        let found = [
            rule.background(0),
            rule.background(1),
            rule.background(2),
            rule.background(3),
        ];
        assert!(rt; found == first, "at {birth} {survive}");
    }
}

#[test]
fn sets_one_answer(rt: HostRuntime) {
    let mut rule = Rule::dead();
    rule.set(200, true);
    rule.set(201, true);
    rule.set(200, false);
    assert!(rt; !rule.next(200) && rule.next(201) && !rule.next(137));
    assert!(rt; rule != Rule::dead());
}
