//! What `make` writes. The sizes of the first objects were drawn by hand, and no source is read.
use crate::answers::asked;
use crate::ends::{Outside, ends};
use geost_run::Status;
use std::test::Fail;

// Each of the forty objects has two shapes, each of these within six sides; two objects overlap in
// four pairs of shapes.
pub const BUDGET: &[u8] = b"objects 40\nconditions 3600\nanswer budget\n";

// With the seed 1 the first two objects are 3 by 2 by 2 and 2 by 2 by 2: the second one stands on
// top of the first.
const LAYOUT: &[u8] = b"objects 40\nconditions 3600\nanswer layout\ntoken 1,0,0,0/1,0,0,2/";

// The problems from these seeds have that summary.
pub const SEEDS: &[&[&str]] = &[
    &["make", "1", "8"],
    &["make", "1", "159"],
    &["make", "0", "1"],
    &["make", "2147483647", "159"],
];

// Words of another form.
pub const FORMS: &[&[&str]] = &[
    &["make"],
    &["make", "1"],
    &["make", "1", "0"],
    &["make", "01", "8"],
    &["make", "00", "8"],
    &["make", "-1", "8"],
    &["make", "2147483648", "8"],
    &["make", "1", "1000000000001"],
    &["make", "1", "8", "9"],
    &["first", "1", "8"],
];

// How often the byte stands in a text.
fn number_of(byte: u8, text: &[u8]) -> usize {
    let mut count = 0usize;
    for c in text {
        if *c == byte {
            count = count.saturating_add(1);
        }
    }
    count
}

// The walk to the first layout has four members for each object.
#[test]
fn a_layout_is_found_within_four_members_an_object(rt: HostRuntime) -> Result<(), Fail> {
    let (status, text) = asked(rt.alloc(), &["make", "1", "160"], b"")?;
    assert_eq!(rt; status, Status::Answered);
    assert!(rt; text.starts_with(LAYOUT));
    assert!(rt; text.ends_with(b"\n"));
    assert_eq!(rt; number_of(b'/', &text), 39);
    let (again, more) = asked(rt.alloc(), &["make", "1", "1000000000000"], b"")?;
    assert_eq!(rt; again, Status::Answered);
    assert!(rt; more == text);
    Ok(())
}

// A source that would fail at its first call.
#[test]
fn no_source_is_read(rt: HostRuntime) -> Result<(), Fail> {
    let asked = (["make", "1", "8"].as_slice(), b"".as_slice());
    let outside: Outside<'_> = ((1, &[1]), (4096, &[]));
    assert!(rt; ends(rt.alloc(), asked, outside, (Status::Budget, BUDGET))?);
    Ok(())
}
