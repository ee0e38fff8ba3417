//! How many statements a text has, and the places of first faults.

/// Texts with the number of their statements, or the first wrong token.
pub const STATEMENTS: &[(&[u8], &str)] = &[
    (
        b"geost 1 dims 2 shape s box 0 -1 size 2 3 box 4 5 size 6 7 ; end",
        "1",
    ),
    (
        b"geost 1 dims 2 object a as s, t at 0..9 -3..4 with w = 30, v = -1 ; end",
        "1",
    ),
    (b"geost 1 dims 2 order b, a ; end", "1"),
    (b"geost 1 dims 2 sides high low ; end", "1"),
    (
        b"geost 1 dims 2 macro m(p : object, k : int, b : box) means true ; end",
        "1",
    ),
    (b"geost 1 dims 2 macro z() is 3 ; end", "1"),
    (b"geost 1 dims 2 rule r : apart ; rule r : false ; end", "2"),
    (b"geost 1 dims 2 rule r : within 0..1 2..3 ; end", "1"),
    (b"", "At(0, Syntax)"),
    (
        b"geost 1 dims 1 shape s size 1 box 0 size 2 ; end",
        "At(23, Syntax)",
    ),
    (
        b"geost 1 dims 1 object a as s, at 0..3 ; end",
        "At(30, Syntax)",
    ),
    (
        b"geost 1 dims 1 macro f(p) means true ; end",
        "At(24, Syntax)",
    ),
    (
        b"geost 1 dims 1 rule r : apart and true ; end",
        "At(30, Syntax)",
    ),
    (b"geost 1 dims 1 # no end\n", "At(24, Syntax)"),
    (b"geost 1 dims 1 end end", "At(19, Syntax)"),
];

/// A rule with 64 minus signs in front of its first number, the first at place 24, or one more.
pub const STATEMENT_LEVELS: &[(&[u8], &str)] = &[
    (
        b"geost 1 dims 1 rule r : - - - - - - - - - - - - - - - - - - - - - - - - - - - - - - - - - - - - - - - - - - - - - - - - - - - - - - - - - - - - - - - - 1 <= a.x1 ; end end",
        "At(168, Syntax)",
    ),
    (
        b"geost 1 dims 1 rule r : - - - - - - - - - - - - - - - - - - - - - - - - - - - - - - - - - - - - - - - - - - - - - - - - - - - - - - - - - - - - - - - - - 1 <= a.x1 ; end end",
        "At(152, Deep)",
    ),
];
