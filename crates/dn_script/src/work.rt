// Operations that are generated from a number.
ghost use Rattle.std.specs.Prelude.{◌≡◌, ◌<◌, ◌/◌, ◌%◌, IfOk, replicate};
ghost use Rattle.dn_script.specs.Work.{next_state, work_name, op_of, op_picked, work_ops};

use dn_model::{ByteText, Op};
use itoa::Buffer;
use pm_layout::PAGE_BYTES;
use std::alloc::{AllocError, Global};

/// The most operations of generated work.
pub const MOST_WORK: u64 = 100_000;

// The linear step of the generator, modulo 2^64: its factor and what it adds.
const FACTOR: u64 = 6_364_136_223_846_793_005;

const INCREMENT: u64 = 1_442_695_040_888_963_407;

// The files that generated operations speak of.
const WORK_FILES: u64 = 16;

// The generator's next state.
fn next_state(state: u64) -> u64
    ensures { result ≡ next_state state }
{
    state.wrapping_mul(FACTOR).wrapping_add(INCREMENT)
}

// The name of a file: `w` and its number.
fn work_name(alloc: Global, file: u64) -> Result<ByteText, AllocError>
    ensures { IfOk result (λ name. name ≡ work_name file) }
{
    let mut buffer = Buffer::new();
    let mut name = Vec::from_slice(alloc, b"w")?;
    name.extend_from_slice(buffer.format(file).as_bytes())?;
    Ok(ByteText::of(name))
}

// What an operation is made from.
#[derive(Clone, Copy)]
struct Choice {
    kind: u64,
    file: u64,
    page: u64,
    value: u8,
}

// The choice that the upper half of a state makes.
fn choice_of(state: u64) -> Choice
    ensures kind { result.kind ≡ state / 4294967296 % 8 }
    ensures file { result.file ≡ state / 4294967296 / 8 % 16 }
    ensures page { result.page ≡ state / 4294967296 / 128 % 32 }
    ensures value { result.value ≡ state / 4294967296 / 4096 % 4 }
{
    let upper = state >> 32u32;
    Choice {
        kind: upper % 8,
        file: upper / 8 % WORK_FILES,
        page: upper / 128 % 32,
        value: (upper / 4096 % 4) as u8,
    }
}

// The operation of a choice.
fn op_of(alloc: Global, choice: Choice) -> Result<Op, AllocError>
    requires page { choice.page < 32 }
    requires file { choice.file < 16 }
    requires value { choice.value < 4 }
    ensures { IfOk result (λ op. op
        ≡ op_of choice.kind choice.file choice.page choice.value) }
{
    let name = work_name(alloc, choice.file)?;
    Ok(match choice.kind {
        0 => Op::Create { name },
        1..=4 => Op::Write {
            name,
            at: choice.page * PAGE_BYTES,
            bytes: page_of(alloc, choice.value + 1)?,
        },
        5 => Op::Cut {
            name,
            size: choice.page * PAGE_BYTES,
        },
        6 => Op::Remove { name },
        _ => Op::Rename {
            from: name,
            to: work_name(alloc, (choice.file + choice.page) % WORK_FILES)?,
        },
    })
}

// A page of bytes of one value.
fn page_of(alloc: Global, value: u8) -> Result<ByteText, AllocError>
    ensures { IfOk result (λ bytes. bytes ≡ replicate 4096 value) }
{
    Ok(ByteText::of(vec![in alloc; value; PAGE_BYTES as usize]?))
}

/// The operations of generated work: as many as its number, which also seeds them, up to `MOST_WORK`. They create, write,
/// cut, remove and rename sixteen files `w0` to `w15` of at most 32 pages, each page of one of four values, so that
/// many pages are equal and the daemon finds much to share.
///
/// # Errors
/// `AllocError` where there is no memory for the operations.
pub fn generated(alloc: Global, number: u64) -> Result<Vec<Op>, AllocError>
    ensures { IfOk result (λ ops. ops.items ≡ work_ops number) }
{
    let mut state = number;
    let mut ops = Vec::new(alloc);
    for _made in 0..number {
        state = next_state(state);
        ops.push(op_of(alloc, choice_of(state))?)?;
    }
    Ok(ops)
}
