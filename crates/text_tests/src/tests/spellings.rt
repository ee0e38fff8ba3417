//! Formulas and expressions with the number of the token behind them and their canonical spelling, as
//! the format says it.

pub const SPELLED_FORMULAS: &[(&[u8], &str)] = &[
    (
        b"[true and [false or true]] implies not [ true ] ;",
        "14 true and [ false or true ] implies not true",
    ),
    (
        b"forall p in objects( a,b ):[p.x1<=03]",
        "17 forall p in objects (a, b) : p.x1 <= 3",
    ),
    (
        b"atleast 02 b in boxes of a : b.lo1=0 or true",
        "15 atleast 2 b in boxes of a : b.lo1 = 0 or true",
    ),
    (b"@ m ( ) and true", "6 @m() and true"),
    (b"a.x1 < 3 and ;", "At(13, Syntax)"),
];

pub const EXPRESSIONS: &[(&[u8], &str)] = &[
    (b"1-(2+3)*-4 mod 05 = 0", "12 1 - (2 + 3) * - 4 mod 5"),
    (
        b"max ( 6 div 2 , min(7,8) ) ;",
        "13 max(6 div 2, min(7, 8))",
    ),
    (b"$ m ( (1) , shape  s )", "10 $m(1, shape s)"),
    (b"((a . x1))", "7 a.x1"),
    (b"(1-2)-(3-4)", "11 (1 - 2) - (3 - 4)"),
    (b"1 + ;", "At(4, Syntax)"),
    (b"", "At(0, Syntax)"),
];
