//! What files of design rules say, and where they are refused.

use crate::nm::NM;
use crate::technology_questions::are_types;
use drc_rules::{DrcFault, Rule, RuleKind, read_drc};
use std::alloc::{AllocError, Global};
use std::test::Fail;
use tech_file::read_tech;
use tech_model::Tech;

/// A rule: its kind, its lists by the numbers of their types, each with its plane, and its distance.
type Told = (RuleKind, &'static [u8], u8, &'static [u8], u8, i64);

/// What comes of a file.
enum Outcome {
    /// These rules.
    Rules(&'static [Told]),
    /// The line of its first fault, and the fault.
    Refused(u32, DrcFault),
}

/// A file: so many lines `width poly 1`, a text behind them, and what comes of it, where the rules of the first lines are left out.
struct File {
    before: usize,
    text: &'static [u8],
    outcome: Outcome,
}

const FILES: &[File] = &[
    File {
        before: 0,
        text: b"",
        outcome: Outcome::Rules(&[]),
    },
    File {
        before: 0,
        text: b"# width\n#\n\n \t \n\twidth \t poly 2 \n#spacing",
        outcome: Outcome::Rules(&[(RuleKind::Width, &[1], 0, &[], 0, 2)]),
    },
    File {
        before: 0,
        text: b"spacing metal,pc/metal,blue,dc/metal 007\nwidth poly,p,diff,red/active,poly 1\n",
        outcome: Outcome::Rules(&[
            (RuleKind::Spacing, &[7, 8, 9], 1, &[], 1, 7),
            (RuleKind::Width, &[1, 2], 0, &[], 0, 1),
        ]),
    },
    File {
        before: 0,
        text: b"separation dc/active,green,pc/active poly,efet 64\nseparation m poly 3\nseparation dc/metal dc/active 3\n",
        outcome: Outcome::Rules(&[
            (RuleKind::Separation, &[6, 2, 5], 0, &[1, 3], 0, 64),
            (RuleKind::Separation, &[7], 1, &[1], 0, 3),
            (RuleKind::Separation, &[9], 1, &[6], 0, 3),
        ]),
    },
    File {
        before: 0,
        text: b"# one\nwidth poly 2\n\nwidth pc 2\nwide\n",
        outcome: Outcome::Refused(4, DrcFault::TwoPlanes),
    },
    File {
        before: 2,
        text: b" # two\nwidth poly 0\n",
        outcome: Outcome::Refused(3, DrcFault::Form),
    },
    File {
        before: 63,
        text: b"spacing diff 5\n\n#\n",
        outcome: Outcome::Rules(&[(RuleKind::Spacing, &[2], 0, &[], 0, 5)]),
    },
    File {
        before: 64,
        text: b"#\nspacing diff 5\nwide\n",
        outcome: Outcome::Refused(66, DrcFault::TooManyRules),
    },
    File {
        before: 64,
        text: b"separation poly p 5\n",
        outcome: Outcome::Refused(65, DrcFault::InBoth),
    },
];

/// A fault, and lines each of which has it in a file of its own.
type Faulty = (DrcFault, &'static [&'static [u8]]);

const FAULTY: &[Faulty] = &[
    (
        DrcFault::Form,
        &[
            b"wide poly 2",
            b"Width poly 2",
            b"width",
            b"width poly",
            b"width poly 2 2",
            b"spacing poly diff 2",
            b"separation poly 2",
            b"separation poly diff metal 2",
            b"width , 2",
            b"width ,poly 2",
            b"width poly, 2",
            b"width poly,,diff 2",
            b"width poly/ 2",
            b"width /active 2",
            b"width poly/active/active 2",
            b"width poly*diff 2",
            b"width ~poly 2",
            b"width (poly) 2",
            b"width poly. 2",
            b"width poly# 2",
            b"width aaaaaaaaaabbbbbbbbbbccccccccccddddddddddeeeeeeeeeeffffffffffggggg 2",
            b"width poly/aaaaaaaaaabbbbbbbbbbccccccccccddddddddddeeeeeeeeeeffffffffffggggg 2",
            b"width poly 2x",
            b"width poly +2",
            b"width poly -",
            b"width poly --2",
            b"width poly 2.0",
            b"separation none poly, 2",
            b"separation none pc two",
        ],
    ),
    (
        DrcFault::NoLayer,
        &[
            b"width none 2",
            b"width space 2",
            b"width POLY 2",
            b"width poly,none,metal 2",
            b"width poly/none 2",
            b"width poly/metal 2",
            b"width none/active 2",
            b"width aaaaaaaaaabbbbbbbbbbccccccccccddddddddddeeeeeeeeeeffffffffffgggg 2",
            b"width poly/aaaaaaaaaabbbbbbbbbbccccccccccddddddddddeeeeeeeeeeffffffffffgggg 2",
            b"separation pc none 2",
            b"separation poly,metal diff/metal 0",
        ],
    ),
    (
        DrcFault::TwoPlanes,
        &[
            b"width pc 2",
            b"spacing poly,metal 2",
            b"width metal,dc/metal,dc/active 2",
            b"separation poly dc 2",
            b"separation pc poly 0",
            b"separation pc pc 2",
        ],
    ),
    (
        DrcFault::Distance,
        &[
            b"width poly 0",
            b"width poly -0",
            b"width poly -3",
            b"spacing poly 65",
            b"width poly 99999999999999999999",
            b"width poly -99999999999999999999",
            b"separation poly red 65",
        ],
    ),
    (
        DrcFault::InBoth,
        &[
            b"separation poly poly 2",
            b"separation poly red 2",
            b"separation diff,pc/active poly,green/active 2",
            b"separation metal,dc/metal blue 2",
        ],
    ),
];

fn is_told(rule: &Rule, want: &Told) -> bool {
    rule.kind == want.0
        && are_types(rule.first.items(), want.1)
        && rule.first_plane == want.2
        && are_types(rule.second.items(), want.3)
        && rule.second_plane == want.4
        && rule.d == want.5
}

fn are_told(rules: &[Rule], before: usize, want: &[Told]) -> bool {
    match rules.get(before..) {
        Some(rules) => {
            rules.len() == want.len()
                && rules
                    .iter()
                    .zip(want)
                    .all(|(rule, want)| is_told(rule, want))
        }
        None => false,
    }
}

/// The text of a file.
fn text_of(alloc: Global, file: &File) -> Result<Vec<u8>, AllocError> {
    let mut text = Vec::new(alloc);
    for _ in 0..file.before {
        text.extend_from_slice(b"width poly 1\n")?;
    }
    text.extend_from_slice(file.text)?;
    Ok(text)
}

fn is_outcome(alloc: Global, tech: &Tech, text: &[u8], file: &File) -> bool {
    match (read_drc(alloc, tech, text), &file.outcome) {
        (Ok(read), Outcome::Rules(want)) => are_told(read.rules.items(), file.before, want),
        (Err(at), Outcome::Refused(line, fault)) => at.line == *line && at.fault == *fault,
        _ => false,
    }
}

fn has_fault(alloc: Global, tech: &Tech, line: &[u8], fault: DrcFault) -> bool {
    match read_drc(alloc, tech, line) {
        Ok(_) => false,
        Err(at) => at.line == 1 && at.fault == fault,
    }
}

#[test]
fn files_of_rules_are_read(rt: HostRuntime) -> Result<(), Fail> {
    let tech = read_tech(rt.alloc(), NM)?;
    for file in FILES {
        let text = text_of(rt.alloc(), file)?;
        assert!(rt; is_outcome(rt.alloc(), &tech, &text, file));
    }
    for (fault, lines) in FAULTY {
        for line in *lines {
            assert!(rt; has_fault(rt.alloc(), &tech, line, *fault));
        }
    }
    Ok(())
}
