//! Problems that several tables ask about.

/// Two boxes of size 2 on the cells 0 to 4.
pub const TWO_BOXES: &[u8] = b"geost 1 dims 1 shape s box 0 size 2 ; \
    object a as s at 0..3 ; object b as s at 0..3 ; rule r : apart ; end";

/// The same boxes on the cells 0 to 2, which have room for one of them.
pub const NARROW: &[u8] = b"geost 1 dims 1 shape s box 0 size 2 ; \
    object a as s at 0..1 ; object b as s at 0..1 ; rule r : apart ; end";

/// One box that has to be there, and one that may be absent.
pub const OPTIONAL: &[u8] = b"geost 2 dims 1 shape s box 0 size 2 ; \
    object a as s at 0..3 ; object b as s, absent at 0..3 ; rule r : apart ; end";

/// A box that has to be absent, since its range ends before 5.
pub const NO_BOX: &[u8] = b"geost 2 dims 1 shape s box 0 size 2 ; \
    object a as s, absent at 0..1 ; rule q : forall p in objects : p.x1 >= 5 ; end";

/// An object before another and that before a third, which ends before the first one has begun.
pub const CHAIN: &[u8] = b"geost 1 dims 1 shape u box 0 size 1 ; \
    object a as u at 4..9 ; object b as u at 0..9 ; object c as u at 0..5 ; \
    rule p : a.x1 < b.x1 ; rule q : b.x1 < c.x1 ; end";

/// Two diagonals of two cells each, which cross in a square of 2 by 2 cells.
pub const DIAGONALS: &[u8] = b"geost 1 dims 2 shape d box 0 1 size 1 1 box 1 0 size 1 1 ; \
    shape e box 0 0 size 1 1 box 1 1 size 1 1 ; \
    object a as d at 0..0 0..0 ; object b as e at 0..0 0..0 ; rule r : apart ; end";
