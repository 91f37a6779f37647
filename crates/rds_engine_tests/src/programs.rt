//! The whole program as one call: its arguments and its input, its output and its status.

use crate::same::same;
use rds_io::Told;
use rds_program::run;
use std::test::Fail;

/// The second line is malformed. The output of the first one comes before its fault line.
#[test]
fn refused_rows(rt: HostRuntime) -> Result<(), Fail> {
    let words = ["rdsrt", "decode", "--pi", "C201"];
    let log = b"C201 2140 4849 0D20\nC201 2140\n".as_slice();
    let mut written = Vec::new(rt.alloc());
    let mut writer = Told::new(&mut written);
    let status = run(rt.alloc(), &words, Told::new(log), &mut writer);
    let wanted = b"0 text \"HI\"\nfault line 2\n".as_slice();
    same(&rt, (status, written.as_slice()), (1, wanted));
    Ok(())
}
