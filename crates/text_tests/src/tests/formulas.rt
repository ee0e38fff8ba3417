//! Formulas and their expressions with the tokens they end at, the faults and the places that the
//! format says.

/// Texts with the number of the token behind their formula, or the first wrong token.
pub const FORMULAS: &[(&[u8], &str)] = &[
    (b"true or false and true ;", "5"),
    (
        b"[true or false] and not true implies false iff true )",
        "12",
    ),
    (b"true )", "1"),
    (b"true iff false iff true", "3"),
    (b"a.x1 < 3 ;", "5"),
    (b"atleast 2 p in objects (a, b) : @m() and true", "17"),
    (b"exists t in boxes of p : t != 0", "10"),
    (b"a.x1 < 3 and ;", "At(13, Syntax)"),
    (b"a.x1 < ", "At(7, Syntax)"),
    (b"forall p in objects true", "At(20, Syntax)"),
    (b"a div b = 0", "At(6, Syntax)"),
    (b"", "At(0, Syntax)"),
    (b"1 - (2 + 3) * -4 mod 05 = 0 ]", "14"),
    (b"max(6 div 2, min(7, 8)) div 9 = 0", "17"),
    (b"$m((1), shape s) = 0", "12"),
    (b"a.x1 + ;", "At(7, Syntax)"),
];

/// Texts in which 64 levels are open, or one more.
pub const FORMULA_LEVELS: &[(&[u8], &str)] = &[
    (
        b"[[[[[[[[[[[[[[[[[[[[[[[[[[[[[[[[[[[[[[[[[[[[[[[[[[[[[[[[[[[[[[[[[;",
        "At(64, Deep)",
    ),
    (
        b"[[[[[[[[[[[[[[[[[[[[[[[[[[[[[[[[[[[[[[[[[[[[[[[[[[[[[[[[[[[[[[[[;",
        "At(64, Syntax)",
    ),
    (
        b"[[[[[[[[[[[[[[[[[[[[[[[[[[[[[[[[[[[[[[[[[[[[[[[[[[[[[[[[[[[[[[[[@f(",
        "At(66, Deep)",
    ),
    (
        b"[[[[[[[[[[[[[[[[[[[[[[[[[[[[[[[[[[[[[[[[[[[[[[[[[[[[[[[[[[[[[[[[@f[",
        "At(66, Syntax)",
    ),
    (
        b"[[[[[[[[[[[[[[[[[[[[[[[[[[[[[[[[[[[[[[[[[[[[[[[[[[[[[[[[[[[[[[[[min(",
        "At(67, Deep)",
    ),
    (
        b"-----------------------------------------------------------------1 = 1",
        "At(64, Deep)",
    ),
    (
        b"[[[[[[[[[[[[[[[[[[[[[[[[[[[[[[[[[[[[[[[[[[[[[[[[[[[[[[[[[[[[[[[forall p in objects (a) : ;",
        "At(89, Syntax)",
    ),
];
