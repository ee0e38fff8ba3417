//! Points in the order of a way, and how a sweep moves on.

use crate::tests::sweeping::corner;
use geo_base::{KBox, Point, Way, advance, before};
use std::test::Fail;

/// Whether the point has these coordinates.
fn is_point(p: &Point<2>, x: i64, y: i64) -> bool {
    p.get(0) == x && p.get(1) == y
}

#[test]
fn a_way_orders_points_by_its_lead_first(rt: HostRuntime) -> Result<(), Fail> {
    let up = Way::new(1, true);
    assert!(rt; before(&up, &corner(9, 0), &corner(0, 1)));
    assert!(rt; before(&up, &corner(0, 1), &corner(1, 1)));
    assert!(rt; !before(&up, &corner(0, 1), &corner(9, 0)));
    assert!(rt; !before(&up, &corner(1, 1), &corner(1, 1)));
    let down = Way::new(1, false);
    assert!(rt; before(&down, &corner(0, 1), &corner(9, 0)));
    assert!(rt; !before(&down, &corner(9, 0), &corner(0, 1)));
    Ok(())
}

/// The jump of the dimension that moves is kept in no other one: it begins anew there alone.
#[test]
fn a_sweep_moves_on_with_a_carry(rt: HostRuntime) -> Result<(), Fail> {
    let way = Way::new(0, true);
    let region = KBox::new(corner(0, 0), corner(3, 1));
    let (mut c, mut n) = (corner(0, 1), corner(2, 2));
    assert!(rt; advance(&way, &region, &mut c, &mut n));
    assert!(rt; is_point(&c, 2, 0) && is_point(&n, 4, 2));
    let (mut c, mut n) = (corner(3, 1), corner(4, 2));
    assert!(rt; !advance(&way, &region, &mut c, &mut n));
    Ok(())
}
