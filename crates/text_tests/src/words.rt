// The words of each command, and words that give none.
use denova_words::command_of;
use std::alloc::{AllocError, Global};
use std::process::Abort;
use std::test::Fail;

// Asserts what a line of words gives.
fn check_words(rt: &impl Abort, alloc: Global, line: &str, wanted: &str) -> Result<(), AllocError> {
    let mut words = Vec::new(alloc);
    for word in line.split(' ') {
        words.push(String::from_str(alloc, word)?)?;
    }
    let command = command_of(alloc, &words)?;
    let text = format!(in alloc; "{command:?}")?;
    assert_eq!(rt; text.as_str(), wanted, "at {line:?}");
    Ok(())
}

#[test]
fn each_command_has_its_words(rt: HostRuntime) -> Result<(), Fail> {
    let rows = [
        ("img format 64 8", "Some(Format { pages: 64, inodes: 8 })"),
        ("img apply", "Some(Apply)"),
        ("img replay", "Some(Replay)"),
        ("img check", "Some(Check)"),
        ("img list", "Some(List)"),
        ("img cat f", "Some(Cat { name: ByteText { bytes: [102] } })"),
        ("img work 1", "Some(Work { operations: 1 })"),
        ("img work 100000", "Some(Work { operations: 100000 })"),
        ("img trial 0 7", "Some(Trial { calls: 0, pick: 7 })"),
        ("img run", "Some(Run)"),
        ("img", "None"),
        ("img cat", "None"),
        ("img cat a b", "None"),
        ("img cat -", "None"),
        ("img cat ", "None"),
        (" apply", "None"),
        ("-img apply", "None"),
        ("img apply x", "None"),
        ("img Apply", "None"),
        ("img work 0", "None"),
        ("img work 100001", "None"),
        ("img work 01", "None"),
        ("img format 64", "None"),
        ("img format 64 8 9", "None"),
        ("img trial 18446744073709551616 0", "None"),
    ];
    for (line, wanted) in rows {
        check_words(&rt, rt.alloc(), line, wanted)?;
    }
    Ok(())
}
