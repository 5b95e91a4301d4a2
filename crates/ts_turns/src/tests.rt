//! Words, and what they name.

use crate::turns;
use std::alloc::{AllocError, Global};
use std::test::Fail;

/// What words come to, a word a line, with `~>` before what it names.
const WORDS: &str = " ~> Some([])
0 ~> Some([0])
15 ~> Some([15])
9,10,0,9 ~> Some([9, 10, 0, 9])
16 ~> None
00 ~> None
01 ~> None
+1 ~> None
-0 ~> None
1, 2 ~> None
, ~> None
1, ~> None
,1 ~> None
1,,2 ~> None
1;2 ~> None
a ~> None
100 ~> None
1_ ~> None
";

/// Whether the row's word comes to what stands behind it.
fn holds(alloc: Global, row: &str) -> Result<bool, AllocError> {
    match row.split_once(" ~> ") {
        Some((word, wanted)) => {
            let found = turns(alloc, word)?;
            Ok(format!(in alloc; "{found:?}")?.as_str() == wanted)
        }
        None => Ok(false),
    }
}

#[test]
fn words_name_clients(rt: HostRuntime) -> Result<(), Fail> {
    let alloc = rt.alloc();
    for row in WORDS.lines() {
        assert!(rt; holds(alloc, row)?, "{row}");
    }
    Ok(())
}
