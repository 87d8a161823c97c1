// The texts of replies, ends and bad lines.
use dn_model::{ByteText, NameList, Refusal, Reply};
use dn_report::report::{write_bad_line, write_end, write_line};
use log_entry::Name;
use std::alloc::{AllocError, Global};
use std::test::Fail;

const WANTED: &str = "\
1 1 done
1 2 bytes 3 616263
1 3 bytes 4 00099aff
1 4 bytes 0
1 5 number 18446744073709551615
1 6 names 2 a b.c
1 7 names 0
1 8 bad-name
1 9 not-found
1 10 exists
1 11 too-long
1 12 too-big
1 13 no-inode
1 14 no-space 17 2
end 14 55
bad-line 100000
end 0 57
";

fn bytes(alloc: Global, bytes: &[u8]) -> Result<Reply, AllocError> {
    Ok(Reply::Bytes(ByteText::of(Vec::from_slice(alloc, bytes)?)))
}

#[test]
fn each_reply_has_its_text(rt: HostRuntime) -> Result<(), Fail> {
    let alloc = rt.alloc();
    let names = vec![in alloc; Name::of(alloc, b"a")?, Name::of(alloc, b"b.c")?]?;
    let replies = [
        Reply::Done,
        bytes(alloc, b"abc")?,
        bytes(alloc, &[0, 9, 0x9a, 255])?,
        bytes(alloc, &[])?,
        Reply::Number(u64::MAX),
        Reply::Names(NameList::of(names)),
        Reply::Names(NameList::of(Vec::new(alloc))),
        Reply::Refused(Refusal::BadName),
        Reply::Refused(Refusal::NotFound),
        Reply::Refused(Refusal::Exists),
        Reply::Refused(Refusal::TooLong),
        Reply::Refused(Refusal::TooBig),
        Reply::Refused(Refusal::NoInode),
        Reply::Refused(Refusal::NoSpace {
            needed: 17,
            free: 2,
        }),
    ];
    let mut text = Vec::new(alloc);
    let mut line = 0u64;
    for reply in replies.iter() {
        line = line.saturating_add(1);
        write_line(&mut text, 1, line, reply)?;
    }
    write_end(&mut text, line, 55)?;
    write_bad_line(&mut text, 100_000)?;
    write_end(&mut text, 0, 57)?;
    assert_eq!(rt; text.as_slice(), WANTED.as_bytes());
    Ok(())
}
