//! First mistakes of names and kinds that the format gives for whole texts, and texts without one.

/// Statements with a name that is not known, or stands twice.
pub const NAMES: &[(&[u8], &str)] = &[
    (b"rule r : p.x1 < 3 ;", "At(71, Unknown)"),
    (b"rule r : a.sid = shape a ;", "At(85, Unknown)"),
    (
        b"rule r : @m(a) ; macro m(p : object) means p.x1 > 0 ;",
        "At(72, Unknown)",
    ),
    (b"macro m() means @m() ; rule r : true ;", "At(79, Unknown)"),
    (
        b"macro m() means q.x1 > 0 ; rule r : forall q in objects : @m() ;",
        "At(78, Unknown)",
    ),
    (
        b"rule r : [ forall p in objects : p.x1 < 3 ] and p.x1 < 3 ;",
        "At(110, Unknown)",
    ),
    (
        b"rule r : forall p in objects (a, a) : true ;",
        "At(95, Twice)",
    ),
    (b"rule r : a <= 4 and q.x1 < 3 ;", "At(82, Unknown)"),
    (
        b"macro m() means a < 3 ; macro n() means q.x1 > 0 ; rule r : true ;",
        "At(102, Unknown)",
    ),
];

/// Statements with a name of another kind, with too few arguments, or with a field that is not
/// known.
pub const KINDS: &[(&[u8], &str)] = &[
    (b"rule r : a <= 4 ;", "At(71, Kind)"),
    (
        b"macro m(a : int) means a.x1 > 0 ; rule r : true ;",
        "At(86, Kind)",
    ),
    (
        b"rule r : forall t in boxes of a : exists u in boxes of t : true ;",
        "At(117, Kind)",
    ),
    (
        b"macro m() means true ; rule r : $m() <= a.x1 ;",
        "At(94, Kind)",
    ),
    (
        b"macro m(p : object) means true ; rule r : @m(- 3) ;",
        "At(107, Kind)",
    ),
    (
        b"macro m(n : int) means true ; rule r : @m((a)) ;",
        "At(104, Kind)",
    ),
    (
        b"macro m(p : object, n : int) means true ; rule r : @m(a, a) ;",
        "At(119, Kind)",
    ),
    (b"macro v() is 1 ; rule r : @v(1) ;", "At(88, Kind)"),
    (
        b"macro m(p : object) means p.x1 > 0 ; rule r : @m(3, a) ;",
        "At(108, Args)",
    ),
    (
        b"macro m(p : object) means true ; rule r : a.x1 < a and @m() ;",
        "At(111, Kind)",
    ),
    (b"rule r : a.x01 <= 3 ;", "At(73, Unknown)"),
    (b"rule r : a.w < 3 and a.x1 < a ;", "At(73, Unknown)"),
    (
        b"rule r : forall t in boxes of a : t.l2 <= 3 ;",
        "At(98, Unknown)",
    ),
];

/// Statements without a mistake.
pub const RIGHT: &[(&[u8], &str)] = &[
    (
        b"rule r : true ; macro m() means true ; rule q : @m() ;",
        "none",
    ),
    (
        b"rule r : forall a in boxes of a : exists q in objects (a) : q.x1 < 3 ;",
        "none",
    ),
    (
        b"object c as s at 0..9 with w = 2 ; rule r : a.w = 0 ;",
        "none",
    ),
];
