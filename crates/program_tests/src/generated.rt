//! Lines of the problems that are made from a seed, against draws worked out by hand.
use problem_generator::make_problem;
use std::test::Fail;

// Lines of the problems of seeds, by their numbers from 0; `?` where there is no such line. The
// seeds are the least one, one, and the greatest, and the last line ends each text.
//
// The upper bits of the first states are 16838, 5758, 10113, 17515, 31051 and 5627 from seed 1; 0,
// 21468 and 9988 from seed 0; and 15929, 4409 and 9862 from the greatest.
const LINES: &[(u32, usize, &[u8])] = &[
    (1, 0, b"geost 1 dims 3"),
    (1, 1, b"shape s1a box 0 0 0 size 3 2 2 ;"),
    (1, 2, b"shape s1b box 0 0 0 size 2 3 2 ;"),
    (1, 3, b"shape s2a box 0 0 0 size 2 2 2 ;"),
    (1, 4, b"shape s2b box 0 0 0 size 2 2 2 ;"),
    (1, 81, b"object o1 as s1a, s1b at 0..19 0..19 0..9 ;"),
    (1, 120, b"object o40 as s40a, s40b at 0..19 0..19 0..9 ;"),
    (1, 121, b"rule rack : within 0..19 0..19 0..9 ;"),
    (1, 122, b"rule free : apart ;"),
    (1, 123, b"end"),
    (1, 124, b""),
    (1, 125, b"?"),
    (0, 1, b"shape s1a box 0 0 0 size 1 1 1 ;"),
    (0, 2, b"shape s1b box 0 0 0 size 1 1 1 ;"),
    (0, 124, b""),
    (0, 125, b"?"),
    (2_147_483_647, 1, b"shape s1a box 0 0 0 size 3 3 1 ;"),
    (2_147_483_647, 2, b"shape s1b box 0 0 0 size 3 3 1 ;"),
    (2_147_483_647, 124, b""),
    (2_147_483_647, 125, b"?"),
];

// The line of that number.
fn line(text: &[u8], number: usize) -> &[u8] {
    let mut lines = text.split(|byte| *byte == b'\n');
    lines.nth(number).unwrap_or(b"?")
}

#[test]
fn the_lines_are_those_of_the_draws(rt: HostRuntime) -> Result<(), Fail> {
    for (seed, number, wanted) in LINES {
        let text = make_problem(rt.alloc(), *seed)?;
        assert!(rt;
            line(&text, *number) == *wanted,
            "line {number} of seed {seed}"
        );
    }
    Ok(())
}
