//! The table by Packet Identifiers, at the ends of its pages: what it keeps, drops, and takes over
//! from another table.
use mq_rules::{ByIdentifier, Memory};
use std::alloc::Global;

// The identifiers at the ends of pages, and the least and the greatest.
const ENDS: [u16; 7] = [65_535, 1, 256, 255, 511, 512, 65_280];

// A table that keeps under each of these identifiers itself.
fn table_of(alloc: Global, identifiers: &[u16]) -> Result<ByIdentifier<u32>, Memory> {
    let mut table = ByIdentifier::new(alloc);
    for i in identifiers {
        table.insert(*i, u32::from(*i))?;
    }
    Ok(table)
}

// How many identifiers a table keeps something under.
fn count_of(table: &ByIdentifier<u32>) -> u32 {
    let mut count: u32 = 0;
    for i in 0..=u16::MAX {
        if table.contains(i) {
            count = count.wrapping_add(1);
        }
    }
    count
}

#[test]
fn keeps_what_is_at_the_ends_of_pages(rt: HostRuntime) -> Result<(), Memory> {
    let table = table_of(rt.alloc(), &ENDS)?;
    for i in ENDS {
        assert_eq!(rt; table.get(i), Some(u32::from(i)));
    }
    assert_eq!(rt; count_of(&table), 7);
    assert_eq!(rt; count_of(&ByIdentifier::new(rt.alloc())), 0);
    Ok(())
}

#[test]
fn keeps_the_last_value_until_it_is_removed(rt: HostRuntime) -> Result<(), Memory> {
    let mut table = table_of(rt.alloc(), &ENDS)?;
    table.insert(256, 7)?;
    assert_eq!(rt; table.remove(256), Some(7));
    assert_eq!(rt; table.remove(256), None);
    assert_eq!(rt; table.remove(700), None);
    assert_eq!(rt; table.get(255), Some(255));
    assert_eq!(rt; count_of(&table), 6);
    Ok(())
}

#[test]
fn takes_over_what_another_table_keeps(rt: HostRuntime) -> Result<(), Memory> {
    let others = table_of(rt.alloc(), &ENDS)?;
    let mut table = table_of(rt.alloc(), &[2, 256, 1000])?;
    table.insert_all(&others, 9)?;
    for i in ENDS {
        assert_eq!(rt; table.get(i), Some(9));
    }
    assert_eq!(rt; table.get(2), Some(2));
    assert_eq!(rt; table.get(1000), Some(1000));
    assert_eq!(rt; count_of(&table), 9);
    Ok(())
}
