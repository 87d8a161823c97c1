// The texts of two files and of work.
use dn_report::listing::{WorkDone, write_file, write_file_count, write_work};
use std::test::Fail;

const LISTED: &str = "\
0 da39a3ee5e6b4b0d3255bfef95601890afd80709 e
3 a9993e364706816aba3e25717850c26c9cd0d89d f
files 2
work 1 done 0 refused 1 files 0 rows 0 mapped 0 free 58
";

#[test]
fn files_and_work_have_their_texts(rt: HostRuntime) -> Result<(), Fail> {
    let mut text = Vec::new(rt.alloc());
    write_file(&mut text, b"e", b"")?;
    write_file(&mut text, b"f", b"abc")?;
    write_file_count(&mut text, 2)?;
    let work = WorkDone {
        done: 0,
        refused: 1,
        files: 0,
        rows: 0,
        mapped: 0,
        free: 58,
    };
    write_work(&mut text, 1, work)?;
    assert_eq!(rt; text.as_slice(), LISTED.as_bytes());
    Ok(())
}
