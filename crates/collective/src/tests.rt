//! Worked cases.

use crate::{exclusive, owner, places_have_one_owner, share, shares_are_the_list, shares_meet};
use std::test::Fail;

#[test]
fn the_sums_are_of_the_counts_before(rt: HostRuntime) -> Result<(), Fail> {
    let sums = exclusive(rt.alloc(), &[3, 0, 4]).ok();
    let sums = sums.ok_or("memory")?;
    assert_eq!(rt; sums.as_slice(), [0, 3, 3].as_slice());
    Ok(())
}

#[test]
fn each_place_is_its_owners(rt: HostRuntime) {
    let half = 1 << 63;
    let cases = [
        (10, 4, 0, (0, 2)),
        (10, 4, 1, (2, 5)),
        (10, 4, 3, (7, 10)),
        (2, 3, 0, (0, 0)),
        (2, 3, 2, (1, 2)),
        (half, 16, 0, (0, 1 << 59)),
        (half, 16, 15, (half - (1 << 59), half)),
    ];
    for (total, workers, rank, (start, end)) in cases {
        assert!(rt; rank < workers);
        assert_eq!(rt; share(total, workers, rank), (start, end), "of {total}");
        if start < end && end <= total {
            assert_eq!(rt; owner(total, workers, start), rank, "of {start}");
            assert_eq!(rt; owner(total, workers, end - 1), rank, "of {end}");
        }
    }
}

#[test]
fn laws_are_called() {
    shares_meet();
    places_have_one_owner();
    shares_are_the_list::<u8>();
}
