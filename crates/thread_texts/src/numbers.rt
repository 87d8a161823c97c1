// The numbers of the lines of clients' operations.
ghost use Rattle.std.specs.Prelude.{◌≡◌, ◌++◌, IfOk, OnOk};
ghost use Rattle.job_texts.specs.Plan.{number_in, numbers_in, line_numbers_in};

use dn_script::{Command, Line, Lines, Numbers};
use job_texts::LineNumbers;
use std::alloc::{AllocError, Global};

// The number of a line that has an operation.
fn push_number(numbers: &mut Vec<u64>, line: &Line) -> Result<(), AllocError>
    ensures { OnOk result (numbers.new.items
        ≡ numbers.old.items ++ number_in line.now.number line.now.command) }
{
    match &line.command {
        Command::Do(_) => {
            numbers.push(line.number)?;
            Ok(())
        }
        Command::Count { .. } => Ok(()),
    }
}

// Those of one client.
fn numbers_of(alloc: Global, lines: &[Line]) -> Result<Numbers, AllocError>
    ensures { IfOk result (λ numbers. numbers ≡ numbers_in lines.now) }
{
    let mut numbers = Vec::new(alloc);
    for line in lines {
        push_number(&mut numbers, line)?;
    }
    Ok(Numbers::of(numbers))
}

/// The numbers of the lines of clients' operations; lines that look at counts are left out.
///
/// # Errors
/// `AllocError` where there is no memory for the numbers.
pub fn line_numbers(alloc: Global, clients: &[(u32, Lines)]) -> Result<LineNumbers, AllocError>
    ensures { IfOk result (λ numbers. numbers ≡ line_numbers_in clients.now) }
{
    let mut numbers = Vec::new(alloc);
    for (who, lines) in clients {
        numbers.push((*who, numbers_of(alloc, lines.lines())?))?;
    }
    Ok(LineNumbers::of(numbers))
}
