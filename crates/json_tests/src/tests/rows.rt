//! The tables.

/// Two objects on a line, as a text and as a value.
pub const TWO: &str =
    "geost 1 dims 1 shape s box 0 size 2 ; object a as s at 0..3 ; object b as s at 0..3 ; rule r : apart ; end";

pub const TWO_JSON: &str =
    r#"{"dims":1,"geost":1,"macros":[],"objects":[{"attributes":[],"name":"a","ranges":[[[0,3]]],"shapes":["s"]},{"attributes":[],"name":"b","ranges":[[[0,3]]],"shapes":["s"]}],"order":["a","b"],"rules":[{"body":"apart","name":"r"}],"shapes":[{"boxes":[{"offset":[0],"size":[2]}],"name":"s"}],"sides":["low"]}"#;

/// Of each problem its value.
pub const VALUES: &[(&str, &str)] = &[
    (TWO, TWO_JSON),
    (
        "geost 1 dims 1 end",
        r#"{"dims":1,"geost":1,"macros":[],"objects":[],"order":[],"rules":[],"shapes":[],"sides":["low"]}"#,
    ),
    (
        "geost 2 dims 2 shape s box 0 -1 size 2 1 ; shape t box 0 0 size 1 1 box -3 2 size 4 5 ; object a as t, s, absent at 0..1, 5..6 -7..-7 with w = -2, v = 3 ; object b as s at 0..1 0..0 ; order b, a ; sides high low ; macro m ( p : object , n : int ) means p.x1 < n ; rule r : @m(a, 4) and not true ; rule q : within 0..9 -1..3 ; end",
        r#"{"dims":2,"geost":2,"macros":["m(p : object, n : int) means p.x1 < n"],"objects":[{"attributes":[["w",-2],["v",3]],"name":"a","ranges":[[[0,1],[5,6]],[[-7,-7]]],"shapes":["t","s","absent"]},{"attributes":[],"name":"b","ranges":[[[0,1]],[[0,0]]],"shapes":["s"]}],"order":["b","a"],"rules":[{"body":"@m(a, 4) and not true","name":"r"},{"body":"within 0..9 -1..3","name":"q"}],"shapes":[{"boxes":[{"offset":[0,-1],"size":[2,1]}],"name":"s"},{"boxes":[{"offset":[0,0],"size":[1,1]},{"offset":[-3,2],"size":[4,5]}],"name":"t"}],"sides":["high","low"]}"#,
    ),
];

/// Of each value the text that it spells, or that it has not the form.
pub const SPELLED: &[(&str, &str)] = &[
    (
        TWO_JSON,
        "geost 1 dims 1\nshape s box 0 size 2 ;\nobject a as s at 0..3 ;\nobject b as s at 0..3 ;\norder a, b ;\nsides low ;\nrule r : apart ;\nend\n",
    ),
    (
        r#" { "sides" : [ ] , "shapes":[{"boxes":[],"name":"0_"}],"rules":[{"body":"\u0061","name":"A"},{"body":"","name":"b"}],"order":[],"objects":[{"attributes":[["w",-1000000000]],"ranges":[[],[[1,2],[3,4]]],"shapes":[],"name":"b"}],"macros":["f( x"],"geost":3,"dims":0,"dims":7} "#,
        "geost 3 dims 7\nshape 0_ ;\nobject b as at 1..2, 3..4 with w = -1000000000 ;\nmacro f( x ;\nrule A : a ;\nrule b :  ;\nend\n",
    ),
    ("{", "form"),
    ("", "form"),
    ("[]", "form"),
    ("null", "form"),
    (
        r#"{"dims":1,"geost":1,"macros":[],"objects":[],"order":[],"rules":[],"shapes":[]}"#,
        "form",
    ),
    (
        r#"{"dims":1,"geost":1,"macros":[],"objects":[],"order":[],"rules":[],"shapes":[],"sides":[],"tides":[]}"#,
        "form",
    ),
    (
        r#"{"dims":1.0,"geost":1,"macros":[],"objects":[],"order":[],"rules":[],"shapes":[],"sides":[]}"#,
        "form",
    ),
    (
        r#"{"dims":-1,"geost":1,"macros":[],"objects":[],"order":[],"rules":[],"shapes":[],"sides":[]}"#,
        "form",
    ),
    (
        r#"{"dims":1000000001,"geost":1,"macros":[],"objects":[],"order":[],"rules":[],"shapes":[],"sides":[]}"#,
        "form",
    ),
    (
        r#"{"dims":1,"geost":1,"macros":["a;"],"objects":[],"order":[],"rules":[],"shapes":[],"sides":[]}"#,
        "form",
    ),
    (
        r#"{"dims":1,"geost":1,"macros":[],"objects":[],"order":["a-b"],"rules":[],"shapes":[],"sides":[]}"#,
        "form",
    ),
    (
        r#"{"dims":1,"geost":1,"macros":[],"objects":[],"order":[],"rules":[],"shapes":[],"sides":["Low"]}"#,
        "form",
    ),
    (
        r#"{"dims":1,"geost":1,"macros":[],"objects":[],"order":[],"rules":[],"shapes":[{"boxes":[{"offset":[-0],"size":[2]}],"name":"s"}],"sides":[]}"#,
        "form",
    ),
    (
        r#"{"dims":1,"geost":1,"macros":[],"objects":[{"attributes":[["w"]],"name":"a","ranges":[],"shapes":[]}],"order":[],"rules":[],"shapes":[],"sides":[]}"#,
        "form",
    ),
];

/// Of each problem and each token of it the value of the layout.
pub const LAYOUTS: &[(&str, &str, &str)] = &[
    (
        TWO,
        "1,0/1,2",
        r#"{"layout":[{"name":"a","origin":[0],"shape":"s"},{"name":"b","origin":[2],"shape":"s"}],"token":"1,0/1,2"}"#,
    ),
    (
        "geost 2 dims 1 shape s box 0 size 2 ; object a as s, absent at -5..1 ; end",
        "2,-5",
        r#"{"layout":[{"name":"a","origin":[-5],"shape":"absent"}],"token":"2,-5"}"#,
    ),
    ("geost 1 dims 1 end", "-", r#"{"layout":[],"token":"-"}"#),
];
