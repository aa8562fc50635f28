use crate::{Charge, Cost, Grade, Weighing, weigh_all};
use std::test::Fail;

#[test]
fn a_sum_of_costs_is_cut_at_the_limit(rt: HostRuntime) {
    let most = Cost::from_plain(1_000_000_000);
    assert_eq!(rt;
        most.both(Cost::from_plain(1)).amount(),
        Some(1_000_000_000)
    );
    assert_eq!(rt;
        Cost::from_plain(999_999_999)
            .both(Cost::from_plain(1))
            .amount(),
        Some(1_000_000_000)
    );
}

#[test]
fn the_largest_charge_has_the_grade_of_free(rt: HostRuntime) -> Result<(), Fail> {
    let charge = Charge::new(1_000_000).ok_or("in range")?;
    assert_eq!(rt; Grade::weigh(charge).value(), 1_000_001);
    assert_eq!(rt; Grade::free().value(), 1_000_001);
    assert!(rt; Charge::new(1_000_001).is_none());
    Ok(())
}

#[test]
fn a_damaged_plain_value_is_none(rt: HostRuntime) {
    assert_eq!(rt; Cost::from_plain(1_000_000_001).amount(), None);
    assert_eq!(rt; Cost::from_plain(u32::MAX).amount(), None);
    assert_eq!(rt; Grade::from_plain(1_000_002).value(), 0);
}

#[test]
fn rows_weigh_together(rt: HostRuntime) -> Result<(), Fail> {
    let three = Charge::new(3).ok_or("in range")?;
    let zero = Charge::ZERO;
    assert_eq!(rt; weigh_all::<Cost>(&[three, zero, three]).amount(), Some(6));
    assert_eq!(rt; weigh_all::<Grade>(&[three, zero]).value(), 1);
    Ok(())
}
