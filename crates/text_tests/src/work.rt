// Generated work, as another program computes it.
use dn_model::{ByteText, Op};
use dn_script::generated;
use itoa::Buffer;
use std::alloc::AllocError;
use std::test::Fail;

// Computed by another program from the generator's numbers.
const TEN: &str = "\
write w8 40960 4096 1
cut w12 32768
rename w8 w5
cut w9 61440
write w12 122880 4096 3
rename w2 w6
remove w3
remove w8
create w13
write w5 61440 4096 4
";

fn put(text: &mut Vec<u8>, word: &str, name: &ByteText) -> Result<(), AllocError> {
    text.extend_from_slice(word.as_bytes())?;
    text.push(b' ')?;
    text.extend_from_slice(name.bytes())
}

fn put_number(text: &mut Vec<u8>, number: u64) -> Result<(), AllocError> {
    let mut buffer = Buffer::new();
    text.push(b' ')?;
    text.extend_from_slice(buffer.format(number).as_bytes())
}

// Appends an operation: its name, its files and its numbers.
fn put_op(text: &mut Vec<u8>, op: &Op) -> Result<(), AllocError> {
    match op {
        Op::Create { name } => put(text, "create", name)?,
        Op::Write { name, at, bytes } => {
            put(text, "write", name)?;
            put_number(text, *at)?;
            put_number(text, bytes.bytes().len() as u64)?;
            if let Some(byte) = bytes.bytes().first() {
                put_number(text, u64::from(*byte))?;
            }
        }
        Op::Cut { name, size } => {
            put(text, "cut", name)?;
            put_number(text, *size)?;
        }
        Op::Remove { name } => put(text, "remove", name)?,
        Op::Rename { from, to } => {
            put(text, "rename", from)?;
            text.push(b' ')?;
            text.extend_from_slice(to.bytes())?;
        }
        _ => text.push(b'?')?,
    }
    text.push(b'\n')?;
    Ok(())
}

#[test]
fn ten_operations_are_generated(rt: HostRuntime) -> Result<(), Fail> {
    let mut text = Vec::new(rt.alloc());
    for op in generated(rt.alloc(), 10)?.iter() {
        put_op(&mut text, op)?;
    }
    assert_eq!(rt; text.as_slice(), TEN.as_bytes());
    Ok(())
}
