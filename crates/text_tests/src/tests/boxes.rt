//! A counter of questions.

use geo_base::Steps;
use std::marker::Brand;

#[test]
fn a_counter_of_questions_takes_no_bytes(rt: HostRuntime) {
    assert!(rt; size_of::<Steps<Brand>>() == 0);
}
