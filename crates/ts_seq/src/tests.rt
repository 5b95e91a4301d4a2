//! Each call of `Seq` once: numbers go in, and what was pushed, split and joined comes out.
ghost use Rattle.std.specs.Prelude.{◌≡◌, IfOk, length};

use crate::Seq;
use std::alloc::Global;
use std::test::Fail;
use ts_base::Shared;

/// The numbers from 0 up to `end`.
fn numbers(alloc: Global, end: u32) -> Result<Seq<u32>, Fail>
    ensures { IfOk result (λ seq. length seq ≡ end) }
{
    let mut seq: Seq<u32> = Seq::empty();
    for n in 0..end {
        seq = seq.push(alloc, Shared::new(alloc, n)?)?;
    }
    Ok(seq)
}

#[test]
fn keeps_the_items_of_a_list(rt: HostRuntime) -> Result<(), Fail> {
    let alloc = rt.alloc();
    let seq = numbers(alloc, 1000)?;
    assert_eq!(rt; seq.len(), 1000);
    assert_eq!(rt; *seq.get(777).get(), 777);
    let (low, high) = seq.split(alloc, 300)?;
    assert_eq!(rt; low.len(), 300);
    assert_eq!(rt; *low.get(299).get(), 299);
    assert_eq!(rt; high.len(), 700);
    assert_eq!(rt; *high.get(0).get(), 300);
    let turned = high.join(alloc, &low.try_clone()?)?;
    assert_eq!(rt; turned.len(), 1000);
    assert_eq!(rt; *turned.get(700).get(), 0);
    assert_eq!(rt; *turned.get(699).get(), 999);
    Ok(())
}
