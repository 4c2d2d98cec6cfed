use super::*;
use std::test::Fail;

// Of five cells two spans of two are carved, and then no third.
#[test]
fn flips_two_spans(rt: HostRuntime) -> Result<(), Fail> {
    let mut region = Region::new(rt.alloc(), 5)?;
    let (Some(mut first), Some(mut second)) = (region.carve(2), region.carve(2)) else {
        panic!(rt; "five cells hold two spans of two");
    };
    region.set(&first, 0, 7);
    assert_eq!(rt; region.get(&first, 0), 7);
    region.flip(&mut first, &mut second);
    assert_eq!(rt; region.part(&second), [7, 0].as_slice());
    assert_eq!(rt; region.part(&first), [0, 0].as_slice());
    assert!(rt; region.carve(2).is_none());
    Ok(())
}

#[test]
fn carves_all_cells(rt: HostRuntime) -> Result<(), Fail> {
    let mut region = Region::new(rt.alloc(), 4)?;
    let all = region.carve(4);
    assert!(rt; all.is_some_and(|span| span.at() == 0 && span.len() == 4));
    let empty = region.carve(0);
    assert!(rt; empty.is_some_and(|span| span.at() == 4 && span.len() == 0));
    assert!(rt; region.carve(1).is_none());
    Ok(())
}

// A write at the last cell of a span, and a flip of two neighbours, leave the spans beside them.
#[test]
fn leaves_the_spans_beside(rt: HostRuntime) -> Result<(), Fail> {
    let mut region = Region::new(rt.alloc(), 8)?;
    let (Some(before), Some(mut first)) = (region.carve(2), region.carve(2)) else {
        panic!(rt; "eight cells hold two spans of two");
    };
    let (Some(mut second), Some(after)) = (region.carve(2), region.carve(2)) else {
        panic!(rt; "eight cells hold four spans of two");
    };
    region.set(&before, 1, 1);
    region.set(&first, 1, 3);
    region.set(&second, 0, 4);
    region.set(&after, 0, 6);
    region.flip(&mut first, &mut second);
    assert_eq!(rt; region.part(&before), [0, 1].as_slice());
    assert_eq!(rt; region.part(&first), [4, 0].as_slice());
    assert_eq!(rt; region.part(&second), [0, 3].as_slice());
    assert_eq!(rt; region.part(&after), [6, 0].as_slice());
    Ok(())
}
