//! Problems that are read, the first faults that the format gives for whole texts, and canonical
//! texts.

/// Texts with the canonical one, or the first fault.
pub const PROBLEMS: &[(&[u8], &str)] = &[
    (
        b"geost 01 dims 1 object a as t, s at 0..3 ; shape s box 0 size 2 ; object b as s at 0..3 ; shape t box -1 size 1 ; order b, a ; sides high ; end",
        "geost 1 dims 1\nshape s box 0 size 2 ;\nshape t box -1 size 1 ;\nobject a as t, s at 0..3 ;\nobject b as s at 0..3 ;\norder b, a ;\nsides high ;\nend\n",
    ),
    (b"", "At(0, Syntax)"),
    (
        b"geost 2 dims 1 shape s box 0 size 2 ; ? end",
        "At(38, Byte)",
    ),
    (b"geost 2 dims 1 shape s box 0 size ; end", "At(34, Syntax)"),
    (
        b"geost 02 dims 5 sides low low low low high;end",
        "geost 2 dims 5\nsides low low low low high ;\nend\n",
    ),
    (b"geost 1 dims 5 end", "At(13, Limit)"),
    (b"geost 2 dims 7 end", "At(13, Limit)"),
    (b"geost 3 dims 1 end", "At(6, Limit)"),
    (b"geost 0 dims 9 end", "At(6, Limit)"),
    (
        b"geost 2 dims 6 object a as u at 0..1 0..1 0..1 0..1,3..3 0..1 -1..-1,1..1; shape u box 0 0 0 0 0 0 size 1 1 1 1 1 1; end",
        "geost 2 dims 6\nshape u box 0 0 0 0 0 0 size 1 1 1 1 1 1 ;\nobject a as u at 0..1 0..1 0..1 0..1, 3..3 0..1 -1..-1, 1..1 ;\nend\n",
    ),
    (
        b"geost 2 dims 1 shape s box 0 size 2 ; object a as s at 0..1 ; object b as s,absent at 0..1 ; rule r : apart ; end",
        "geost 2 dims 1\nshape s box 0 size 2 ;\nobject a as s at 0..1 ;\nobject b as s, absent at 0..1 ;\nrule r : apart ;\nend\n",
    ),
    (
        b"geost 2 dims 1 shape s box 0 size 2 ; object a as absent at 0..1 ; end",
        "At(50, Syntax)",
    ),
    (
        b"geost 2 dims 1 shape s box 0 size 2 ; object a as s, absent, s at 0..1 ; end",
        "At(59, Syntax)",
    ),
    (
        b"geost 1 dims 1 shape s box 0 size 2 ; object a as s, absent at 0..1 ; end",
        "At(53, Syntax)",
    ),
    (
        b"geost 3 dims 1 shape s box 0 size 2 ; object a as s, absent at 0..1 ; end",
        "At(53, Syntax)",
    ),
    (
        b"geost 2 dims 1 shape a box 0 size 1 ; shape b box 0 size 1 ; shape c box 0 size 1 ; shape d box 0 size 1 ; shape e box 0 size 1 ; shape f box 0 size 1 ; shape g box 0 size 1 ; shape h box 0 size 1 ; shape i box 0 size 1 ; shape j box 0 size 1 ; shape k box 0 size 1 ; shape l box 0 size 1 ; shape m box 0 size 1 ; shape n box 0 size 1 ; shape o box 0 size 1 ; shape p box 0 size 1 ; object z as a, b, c, d, e, f, g, h, i, j, k, l, m, n, o, p, absent at 0..1 ; end",
        "At(443, Limit)",
    ),
    (
        b"geost 2 dims 1 shape a box 0 size 1 ; shape b box 0 size 1 ; shape c box 0 size 1 ; shape d box 0 size 1 ; shape e box 0 size 1 ; shape f box 0 size 1 ; shape g box 0 size 1 ; shape h box 0 size 1 ; shape i box 0 size 1 ; shape j box 0 size 1 ; shape k box 0 size 1 ; shape l box 0 size 1 ; shape m box 0 size 1 ; shape n box 0 size 1 ; shape o box 0 size 1 ; object z as a, b, c, d, e, f, g, h, i, j, k, l, m, n, o, absent at 0..1 ; end",
        "geost 2 dims 1\nshape a box 0 size 1 ;\nshape b box 0 size 1 ;\nshape c box 0 size 1 ;\nshape d box 0 size 1 ;\nshape e box 0 size 1 ;\nshape f box 0 size 1 ;\nshape g box 0 size 1 ;\nshape h box 0 size 1 ;\nshape i box 0 size 1 ;\nshape j box 0 size 1 ;\nshape k box 0 size 1 ;\nshape l box 0 size 1 ;\nshape m box 0 size 1 ;\nshape n box 0 size 1 ;\nshape o box 0 size 1 ;\nobject z as a, b, c, d, e, f, g, h, i, j, k, l, m, n, o, absent at 0..1 ;\nend\n",
    ),
    (
        b"geost 2 dims 1 shape s box 0 size 1 ; object a as s at 0..1, 3..4, 6..7, 9..10, 12..13, 15..16, 18..19, 21..22 ; end",
        "geost 2 dims 1\nshape s box 0 size 1 ;\nobject a as s at 0..1, 3..4, 6..7, 9..10, 12..13, 15..16, 18..19, 21..22 ;\nend\n",
    ),
    (
        b"geost 2 dims 1 shape s box 0 size 1 ; object a as s at 0..1, 3..4, 6..7, 9..10, 12..13, 15..16, 18..19, 21..22, 90..91 ; end",
        "At(112, Limit)",
    ),
    (
        b"geost 2 dims 1 shape s box 0 size 1 ; object a as s at 0..1, 3..4, 6..7, 9..10, 12..13, 15..16, 18..19, 21..22, 9..1 ; end",
        "At(112, Limit)",
    ),
    (
        b"geost 2 dims 1 shape s box 0 size 2 ; object a as s at 0..1,2..6 ; object b as s at 0..1 ; rule r : apart ; end",
        "At(60, Range)",
    ),
    (
        b"geost 2 dims 1 shape s box 0 size 1 ; object a as s at 0..1, 4..3 ; end",
        "At(61, Range)",
    ),
    (
        b"geost 2 dims 1 shape s box 0 size 1 ; object a as s at 9..0, 2..3 ; end",
        "At(55, Range)",
    ),
    (
        b"geost 2 dims 1 shape s box 0 size 1 ; object a as s at 5..6, 0..1 ; end",
        "At(61, Range)",
    ),
    (
        b"geost 2 dims 2 shape s box 0 0 size 1 1 ; object a as s at 0..1, 3..4 ; end",
        "At(59, Limit)",
    ),
    (
        b"geost 2 dims 1 shape s box 0 size 1 ; object a as s at 0..1, 3..4 with x9 = 1 ; end",
        "At(71, Twice)",
    ),
    (
        b"geost 1 dims 1 shape s box 0 size 2 ; object a as s at 0..1,5..6 ; object b as s at 0..1 ; rule r : apart ; end",
        "At(59, Syntax)",
    ),
    (
        b"geost 3 dims 1 shape s box 0 size 1 ; object a as s at 0..1, 3..4 ; end",
        "At(59, Syntax)",
    ),
    (
        b"geost 2 dims 1 rule r : within 0..1, 3..4 ; end",
        "At(35, Syntax)",
    ),
    (b"geost 1 dims 1 shape s box 0 size 0 ; end", "At(34, Size)"),
    (
        b"geost 1 dims 2 shape u box 0 0 size 0 ; end",
        "At(36, Limit)",
    ),
    (
        b"geost 1 dims 2 shape u box 0 0 size 1 1 ; object a as u at 3..1 ; end",
        "At(59, Limit)",
    ),
    (
        b"geost 1 dims 1 shape s box 0 size 1 ; object a as s at 0..9 ; rule r : a.id mod 00 <= 3 ; end",
        "At(80, Limit)",
    ),
    (
        b"geost 1 dims 1 shape s box 0 size 2 ; object a as s at 3..-2000000 ; object b as s at 0..3 ; rule r : apart ; end",
        "At(55, Range)",
    ),
    (
        b"geost 1 dims 1 shape s box 0 size 2 ; object a as s at 0..3 with x = 0, x0 = 0, x10 = 0, t1 = 0, x9 = 1 ; end",
        "At(97, Twice)",
    ),
    (
        b"geost 1 dims 1 shape s box 0 size 2 ; object a as s at 0..3 ; object b as t at 0..3 ; end",
        "At(74, Unknown)",
    ),
    (
        b"geost 1 dims 1 shape s box 0 size 2 ; object a as s at 0..3 ; object b as s at 0..3 ; order a ; rule r : apart ; end",
        "At(86, Order)",
    ),
    (
        b"geost 1 dims 1 shape s box 0 size 2 ; object a as s at 0..3 ; object b as s at 0..3 ; order a, b ; order b ; end",
        "At(99, Twice)",
    ),
    (
        b"geost 01 dims 1 object a as t,s at -3..4 with w=-2; shape s box 0 size 2; shape t box -1 size 1; end",
        "geost 1 dims 1\nshape s box 0 size 2 ;\nshape t box -1 size 1 ;\nobject a as t, s at -3..4 with w = -2 ;\nend\n",
    ),
    (
        b"geost 1 dims 1 shape f box 0 size 2 ; object b as t, f at 0..1 ; shape t box 0 size 1 ; object a as t at 0..1 ; end",
        "geost 1 dims 1\nshape f box 0 size 2 ;\nshape t box 0 size 1 ;\nobject b as t, f at 0..1 ;\nobject a as t at 0..1 ;\nend\n",
    ),
];

/// Texts of problems with their versions and, for each object, the pieces of each of its ranges.
pub const PIECES: &[(&[u8], &str)] = &[
    (b"geost 02 dims 1 end", "2"),
    (
        b"geost 1 dims 2 object a as s at 0..3 -2..-1 ; shape s box 0 0 size 2 1 ; end",
        "1 ; | 0..3 | -2..-1",
    ),
    (
        b"geost 2 dims 2 object a as s at 0..1, 5..6 -3..-3; shape s box 0 0 size 2 1; object b as s at 0..9 1..1,3..3,5..7; end",
        "2 ; | 0..1 5..6 | -3..-3 ; | 0..9 | 1..1 3..3 5..7",
    ),
];

/// Texts of problems whose rules are formulas, each with its canonical one, which is its own.
pub const CANONICAL_FORMULAS: &[(&[u8], &str)] = &[
    (
        b"geost 1 dims 1 rule r:[[a<1]] and [b<2 and [true]] or [[false or true]];end",
        "geost 1 dims 1\nrule r : a < 1 and [ b < 2 and true ] or [ false or true ] ;\nend\n",
    ),
    (
        b"geost 1 dims 1\nrule r : a < 1 and [ b < 2 and true ] or [ false or true ] ;\nend\n",
        "geost 1 dims 1\nrule r : a < 1 and [ b < 2 and true ] or [ false or true ] ;\nend\n",
    ),
    (
        b"geost 1 dims 1 rule r:[true iff false] implies [not [true]] iff [true implies true];end",
        "geost 1 dims 1\nrule r : [ true iff false ] implies not true iff true implies true ;\nend\n",
    ),
    (
        b"geost 1 dims 1\nrule r : [ true iff false ] implies not true iff true implies true ;\nend\n",
        "geost 1 dims 1\nrule r : [ true iff false ] implies not true iff true implies true ;\nend\n",
    ),
    (
        b"geost 1 dims 1 rule r:((1+2)+3)-((4*5)*(6)) mod 07 <= -(-(8+a.x1));end",
        "geost 1 dims 1\nrule r : ((1 + 2) + 3) - ((4 * 5) * 6) mod 7 <= - - (8 + a.x1) ;\nend\n",
    ),
    (
        b"geost 1 dims 1\nrule r : ((1 + 2) + 3) - ((4 * 5) * 6) mod 7 <= - - (8 + a.x1) ;\nend\n",
        "geost 1 dims 1\nrule r : ((1 + 2) + 3) - ((4 * 5) * 6) mod 7 <= - - (8 + a.x1) ;\nend\n",
    ),
    (
        b"geost 1 dims 1 rule r:forall p in objects(a,b):exists t in boxes of p:[@ m( p , -1 )or $v ( )!=min( (1),max(2,shape s) )];end",
        "geost 1 dims 1\nrule r : forall p in objects (a, b) : exists t in boxes of p : [ @m(p, - 1) or $v() != min(1, max(2, shape s)) ] ;\nend\n",
    ),
    (
        b"geost 1 dims 1\nrule r : forall p in objects (a, b) : exists t in boxes of p : [ @m(p, - 1) or $v() != min(1, max(2, shape s)) ] ;\nend\n",
        "geost 1 dims 1\nrule r : forall p in objects (a, b) : exists t in boxes of p : [ @m(p, - 1) or $v() != min(1, max(2, shape s)) ] ;\nend\n",
    ),
    (
        b"geost 1 dims 1 rule r:atleast 002 p in objects : not atmost 1 q in objects : p . x1>=(q.x1);end",
        "geost 1 dims 1\nrule r : atleast 2 p in objects : not atmost 1 q in objects : p.x1 >= q.x1 ;\nend\n",
    ),
    (
        b"geost 1 dims 1\nrule r : atleast 2 p in objects : not atmost 1 q in objects : p.x1 >= q.x1 ;\nend\n",
        "geost 1 dims 1\nrule r : atleast 2 p in objects : not atmost 1 q in objects : p.x1 >= q.x1 ;\nend\n",
    ),
];
