// Classes with their sizes, and successors, worked by hand. Texts with their canonical forms and faults are compared with worked rows over
// the program.
use lls_hensel::{
    Class, PrintRuleError, RuleError, all_classes, class_at, class_of, is_isotropic, print_rule,
    read_rule,
};
use lls_rule::Rule;
use std::alloc::Global;
use std::process::Abort;

#[test]
fn an_empty_text_is_no_rule(rt: HostRuntime) {
    assert!(rt; read_rule(b"") == Err(RuleError::Empty));
}

#[test]
fn successors_worked_by_hand(rt: HostRuntime) {
    for (text, nine, live) in [
        ("B3/S2-i34q", 0b000_111_000, false),
        ("B3/S2-i34q", 0b000_110_001, true),
        ("B3/S2-i34q", 0b001_110_110, true),
        ("B3/S2-i34q", 0b101_010_101, false),
        ("B3/S2-i34q", 0b100_100_001, true),
        ("B2-a/S12", 0b000_000_011, false),
        ("B2-a/S12", 0b100_000_001, true),
        ("B2-a/S12", 0b000_010_100, true),
        ("B5c/S", 0b010_101_110, true),
        ("B5c/S", 0b101_101_100, false),
        ("B7e/S", 0b111_101_101, true),
        ("B7e/S", 0b111_101_110, false),
    ] {
        let rule = read_rule(text.as_bytes()).expect(&rt, text);
        assert!(rt; nine < Rule::NEIGHBOURHOODS);
        assert!(rt; rule.next(nine) == live, "{text} {nine}");
    }
}

#[test]
fn sizes_of_classes(rt: HostRuntime) {
    for (few, many, letter, size) in [
        (0, 8, None, 1),
        (1, 7, Some(b'c'), 4),
        (1, 7, Some(b'e'), 4),
        (2, 6, Some(b'a'), 8),
        (2, 6, Some(b'c'), 4),
        (2, 6, Some(b'e'), 4),
        (2, 6, Some(b'i'), 2),
        (2, 6, Some(b'k'), 8),
        (2, 6, Some(b'n'), 2),
        (3, 5, Some(b'a'), 4),
        (3, 5, Some(b'c'), 4),
        (3, 5, Some(b'e'), 4),
        (3, 5, Some(b'i'), 4),
        (3, 5, Some(b'j'), 8),
        (3, 5, Some(b'k'), 4),
        (3, 5, Some(b'n'), 8),
        (3, 5, Some(b'q'), 8),
        (3, 5, Some(b'r'), 8),
        (3, 5, Some(b'y'), 4),
        (4, 4, Some(b'a'), 8),
        (4, 4, Some(b'c'), 1),
        (4, 4, Some(b'e'), 1),
        (4, 4, Some(b'i'), 4),
        (4, 4, Some(b'j'), 8),
        (4, 4, Some(b'k'), 8),
        (4, 4, Some(b'n'), 8),
        (4, 4, Some(b'q'), 4),
        (4, 4, Some(b'r'), 8),
        (4, 4, Some(b't'), 4),
        (4, 4, Some(b'w'), 4),
        (4, 4, Some(b'y'), 8),
        (4, 4, Some(b'z'), 4),
    ] {
        for count in [few, many] {
            let found = (0..=255)
                .filter(|eight| class_of(*eight) == (Class { count, letter }))
                .count();
            assert!(rt; found == size, "{count} {letter:?}");
        }
    }
}

// The number of the neighbourhood of these eight and a centre: four stand before it, and four behind.
fn nine_of(eight: u8, centre: bool) -> u16 {
    let (before, behind) = (u16::from(eight / 16), u16::from(eight % 16));
    before * 32 + u16::from(centre) * 16 + behind
}

// Whether the text is that of a rule, under which a place lives with these eight exactly where its centre is so.
fn assert_class(rt: &impl Abort, alloc: Global, eight: u8, centre: bool, text: &str) {
    let rule = read_rule(text.as_bytes()).expect(rt, text);
    let printed = print_rule(alloc, &rule).expect(rt, text);
    assert!(rt; printed.as_slice() == text.as_bytes(), "{text}");
    let (same, other) = (nine_of(eight, centre), nine_of(eight, !centre));
    assert!(rt; same < Rule::NEIGHBOURHOODS && other < Rule::NEIGHBOURHOODS);
    assert!(rt; rule.next(same) && !rule.next(other), "{text} {eight}");
}

#[test]
fn each_class_is_printed_and_read(rt: HostRuntime) {
    for eight in 0..=255 {
        let Class { count, letter } = class_of(eight);
        let letters = match letter {
            Some(letter) => format!(in rt.alloc(); "{}", char::from(letter)),
            None => format!(in rt.alloc(); ""),
        };
        let letters = letters.expect(&rt, "memory");
        for survival in [false, true] {
            let text = if survival {
                format!(in rt.alloc(); "B/S{count}{letters}")
            } else {
                format!(in rt.alloc(); "B{count}{letters}/S")
            };
            let text = text.expect(&rt, "memory");
            assert_class(&rt, rt.alloc(), eight, survival, &text);
        }
    }
}

#[test]
fn a_rule_that_is_not_isotropic(rt: HostRuntime) {
    for (nine, least) in [(2, 8), (8, 8), (16 + 4, 16 + 4), (16 + 1, 16 + 4)] {
        let mut rule = Rule::from_counts(0b1000, 0b1100);
        assert!(rt; nine < Rule::NEIGHBOURHOODS);
        assert!(rt; is_isotropic(&rule));
        let live = rule.next(nine);
        rule.set(nine, !live);
        assert!(rt; !is_isotropic(&rule));
        assert!(rt;
            print_rule(rt.alloc(), &rule) == Err(PrintRuleError::NotIsotropic(least)),
            "{nine}"
        );
    }
}

// The letters of each count, and none where there is one class alone.
#[test]
fn classes_in_their_order(rt: HostRuntime) {
    let few = ["-", "ce", "aceikn", "aceijknqry"];
    let letters = few.iter().chain(&["aceijknqrtwyz"]).chain(few.iter().rev());
    let mut classes = all_classes().iter();
    for (count, letters) in (0..).zip(letters) {
        for letter in letters.bytes() {
            let letter = Some(letter).filter(|letter| *letter != b'-');
            assert!(rt; classes.next() == Some(&Class { count, letter }));
        }
    }
    assert!(rt; classes.next().is_none());
}

#[test]
fn classes_of_neighbourhoods(rt: HostRuntime) {
    for (nine, count, letter) in [
        (0, 0, None),
        (16, 0, None),
        (1, 1, Some(b'c')),
        (16 + 2, 1, Some(b'e')),
        (40, 2, Some(b'i')),
        (511 - 16 - 68, 6, Some(b'n')),
        (511, 8, None),
    ] {
        assert!(rt; class_at(nine) == Class { count, letter }, "{nine}");
    }
}
