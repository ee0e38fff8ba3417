//! Tokens and faults that the format says of texts.

/// Texts with their tokens, or the first wrong one.
pub const TOKENS: &[(&[u8], &str)] = &[
    (b"", ""),
    (b" \t\r\n", ""),
    (b"# a comment ; \xff", ""),
    (b"a# one\n b", "name 0 1, name 8 9, "),
    (b"geost 1", "geost 0 5, 1 6 7, "),
    (b"_x1 ends End", "name 0 3, name 4 8, name 9 12, "),
    (b"007 1000000000", "7 0 3, 1000000000 4 14, "),
    (b"a234567890123456789012345678901234567890", "name 0 40, "),
    (b"0..5", "0 0 1, .. 1 3, 5 3 4, "),
    (b"qed atleast", "qed 0 3, atleast 4 11, "),
    (b"<=< =>=>", "<= 0 2, < 2 3, = 4 5, >= 5 7, > 7 8, "),
    (b"...!=", ".. 0 2, . 2 3, != 3 5, "),
    (
        b"@on($p,q);",
        "@ 0 1, name 1 3, ( 3 4, $ 4 5, name 5 6, , 6 7, name 7 8, ) 8 9, ; 9 10, ",
    ),
    (b"a ! b", "At(2, Byte)"),
    (b"a ? 12b", "At(2, Byte)"),
    (b"12b ?", "At(0, Number)"),
    (b"1000000001", "At(0, Number)"),
    (b"x 12ab", "At(2, Number)"),
    (b"1_", "At(0, Number)"),
    (b"99999999999999999999999999", "At(0, Number)"),
    (
        b"; a2345678901234567890123456789012345678901",
        "At(2, Name)",
    ),
    (b"# ok\n \xc3\xa4 !", "At(6, Byte)"),
    (b"{ 1a", "At(0, Byte)"),
];

/// Where the first word `end` of a text ends.
pub const ENDS: &[(&[u8], &str)] = &[
    (
        b"geost 1 dims 1 shape s box 0 size 2 ; object a as s at 0..3 ; object b as s at 0..3 ; rule r : apart ; end",
        "Some(106)",
    ),
    (b"geost 1 dims 1 end layout", "Some(18)"),
    (b"end", "Some(3)"),
    (b"[end]", "Some(4)"),
    (b"# end", "None"),
    (b"end_x 1end xend", "None"),
    (b"1end end_x end1 # end\nendend", "None"),
    (b"# end\n;end; end", "Some(10)"),
    (b"", "None"),
];
