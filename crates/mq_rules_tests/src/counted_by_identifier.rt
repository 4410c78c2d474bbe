//! The table by Packet Identifiers that knows its size: its size, the order of its values, and
//! pages that lose their last value while others get their first.
use mq_rules::{CountedByIdentifier, Memory};
use std::alloc::Global;

// The identifiers at the ends of pages, and the least and the greatest, in their order.
const ENDS: [u16; 7] = [1, 255, 256, 511, 512, 65_280, 65_535];

// A table that keeps under each of these identifiers itself. The last one comes first.
fn table_of(alloc: Global, identifiers: &[u16]) -> Result<CountedByIdentifier<u32>, Memory> {
    let mut table = CountedByIdentifier::new(alloc);
    for i in identifiers.iter().rev() {
        table.insert(*i, u32::from(*i))?;
    }
    Ok(table)
}

#[test]
fn knows_how_many_values_it_keeps(rt: HostRuntime) -> Result<(), Memory> {
    let mut table = table_of(rt.alloc(), &ENDS)?;
    assert_eq!(rt; table.len(), 7);
    table.insert(256, 7)?;
    table.replace(255, 8);
    table.replace(254, 9);
    assert_eq!(rt; table.len(), 7);
    assert_eq!(rt; table.get(255), Some(8));
    assert_eq!(rt; table.remove(256), Some(7));
    assert_eq!(rt; table.remove(256), None);
    assert_eq!(rt; table.len(), 6);
    Ok(())
}

#[test]
fn tells_whether_others_are_kept(rt: HostRuntime) -> Result<(), Memory> {
    let mut table = table_of(rt.alloc(), &[256])?;
    assert!(rt; table.contains(256));
    assert!(rt; !table.any_but(256));
    assert!(rt; table.any_but(255));
    table.insert(65_535, 1)?;
    assert!(rt; table.any_but(256));
    table.clear();
    assert!(rt; !table.any_but(255));
    assert_eq!(rt; table.len(), 0);
    Ok(())
}

#[test]
fn finds_values_in_the_order_of_their_identifiers(rt: HostRuntime) -> Result<(), Memory> {
    let table = table_of(rt.alloc(), &ENDS)?;
    let mut next = 0;
    for i in ENDS {
        assert_eq!(rt; table.first_from(next), Some((i, u32::from(i))));
        next = usize::from(i) + 1;
    }
    assert_eq!(rt; table.first_from(next), None);
    assert_eq!(rt; table.first_from(513), Some((65_280, 65_280)));
    Ok(())
}

#[test]
fn keeps_nothing_of_a_page_that_empties_while_another_fills(rt: HostRuntime) -> Result<(), Memory> {
    let mut table = table_of(rt.alloc(), &[300])?;
    for i in [10, 300, 600, 10, 65_535] {
        table.insert(i, 1)?;
        table.remove(300);
        table.remove(600);
        assert_eq!(rt; table.get(300), None);
        assert_eq!(rt; table.get(600), None);
        table.insert(600, 2)?;
        assert_eq!(rt; table.get(600), Some(2));
        assert_eq!(rt; table.get(88), None);
        assert_eq!(rt; table.get(10), Some(1));
        assert_eq!(rt; table.get(266), None);
    }
    assert_eq!(rt; table.get(65_535), Some(1));
    assert_eq!(rt; table.get(65_279), None);
    assert_eq!(rt; table.len(), 3);
    Ok(())
}
