//! Tables of periodic columns' values.
use stark_support::PeriodicLdeTable;
use std::alloc::AllocError;

#[test]
fn rows_of_a_table_begin_again(rt: HostRuntime) -> Result<(), AllocError> {
    let alloc = rt.alloc();
    let table = PeriodicLdeTable::new(vec![in alloc; 0u8, 10, 1, 11, 2, 12, 3, 13]?, 2, 4);
    assert!(rt; table.width() == 2 && !table.is_empty());
    assert!(rt; table.get(1, 0) == 1 && table.get(3, 1) == 13);
    assert!(rt; table.get(4, 1) == 10 && table.get(11, 0) == 3);
    assert!(rt; table.packed_group_period(1) == 4 && table.packed_group_period(2) == 2);
    assert!(rt; table.packed_group_period(4) == 1 && table.packed_group_period(8) == 1);
    Ok(())
}

#[test]
fn a_table_of_no_column(rt: HostRuntime) {
    let table: PeriodicLdeTable<u8> = PeriodicLdeTable::new(Vec::new(rt.alloc()), 0, 8);
    assert!(rt; table.width() == 0 && table.is_empty());
}
