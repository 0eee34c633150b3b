//! Bits in a row of records, as worked out by hand.
use crate::words::words;
use em_bits::{and_in, fill, get};
use std::test::Fail;

/// 512 ones in two records. Bits 0, 65 and 511 are joined to a 0, and then bits 65 and 66 to a 1.
#[test]
fn bits_are_joined_to_others(rt: HostRuntime) -> Result<(), Fail> {
    let mut records = [words(0, 0, 0, 0); 2];
    fill(&mut records);
    for at in [0, 65, 511] {
        and_in(&mut records, at, false);
    }
    for at in [65, 66] {
        and_in(&mut records, at, true);
    }
    let all = u64::MAX;
    let wanted = [
        words(all - 1, all - 2, all, all),
        words(all, all, all, all / 2),
    ];
    assert_eq!(rt; records, wanted);
    let bits = [
        get(&records, 64),
        get(&records, 65),
        get(&records, 66),
        get(&records, 511),
    ];
    assert_eq!(rt; bits, [true, false, true, false]);
    Ok(())
}
