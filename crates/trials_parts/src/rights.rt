// Each public call once, against answers that were written out by hand.

use hk_rights::{Right, Rights};
use std::test::Fail;

#[test]
fn rights_have_names_and_numbers(rt: HostRuntime) -> Result<(), Fail> {
    let names = ["GETDATA", "COPY", "MODIFY", "UNCONF", "A0", "A7"];
    let numbers = [0, 7, 8, 10, 16, 23];
    for i in 0..6 {
        let right = Right::by_name(names[i]).ok_or("a right of this name")?;
        assert_eq!(rt; right.number(), numbers[i]);
        assert_eq!(rt; right.name(), names[i]);
        assert_eq!(rt; Right::new(numbers[i]), Some(right));
    }
    assert_eq!(rt; Right::by_name("getdata"), None);
    assert_eq!(rt; Right::by_name("A8"), None);
    assert_eq!(rt; Right::by_name(""), None);
    assert_eq!(rt; Right::new(11), None);
    assert_eq!(rt; Right::new(24), None);
    assert_eq!(rt; Right::UNCONF.name(), "UNCONF");
    Ok(())
}

#[test]
fn sets_of_rights(rt: HostRuntime) -> Result<(), Fail> {
    let some = Rights::from_bits(0x0070_0101).ok_or("a set of rights")?;
    assert_eq!(rt; Rights::from_bits(0x800), None);
    assert_eq!(rt; Rights::from_bits(0x0100_0000), None);
    let modify = Rights::one(Right::MODIFY);
    assert_eq!(rt; modify, Rights::MODIFY);
    assert!(rt; some.contains(modify));
    assert!(rt; !modify.contains(some));
    assert!(rt; some.has(Right::GETDATA));
    assert!(rt; !some.has(Right::ENV));
    assert_eq!(rt; some.without(modify).bits(), 0x0070_0001);
    assert_eq!(rt; some.intersection(Rights::SPECIAL), modify);
    assert_eq!(rt; modify.union(Rights::PUTDATA), Rights::PUTDATA_MODIFY);
    assert_eq!(rt; Rights::all().bits(), 0x00ff_07ff);
    assert_eq!(rt; Rights::none().bits(), 0);
    assert_eq!(rt; modify.first_missing(some), Some(Right::GETDATA));
    assert_eq!(rt; some.first_missing(modify), None);
    Ok(())
}
