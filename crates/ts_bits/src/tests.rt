//! Sets of bits by examples.
ghost use Rattle.std.specs.Prelude.{◌<◌, IfOk};
ghost use Rattle.ts_bits.specs.Members.{IsWide};

use crate::BitSet;
use std::alloc::{AllocError, Global};
use std::test::Fail;

/// The set of a number below 128.
fn one(alloc: Global, number: usize) -> Result<BitSet, AllocError>
    requires { number < 128 }
    ensures { IfOk result (IsWide 2) }
{
    let mut set = BitSet::new(alloc, 2)?;
    set.insert(number);
    Ok(set)
}

#[test]
fn a_set_holds_numbers(rt: HostRuntime) -> Result<(), Fail> {
    let alloc = rt.alloc();
    let mut set = one(alloc, 63)?;
    assert!(rt; set.union_with(&one(alloc, 64)?));
    assert!(rt; !set.union_with(&one(alloc, 64)?));
    assert!(rt; !set.insert(63));
    let mut copy = set.copy(alloc)?;
    copy.clear();
    assert_eq!(rt; copy.least(), None);
    assert!(rt; set.contains(64) && !set.contains(65));
    assert_eq!(rt; set.least(), Some(63));
    assert_eq!(rt; set.next_from(64), Some(64));
    assert_eq!(rt; set.next_from(65), None);
    Ok(())
}
