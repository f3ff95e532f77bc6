//! The numbers of a line, whatever the line is.
ghost use Rattle.std.specs.Prelude.{◌≡◌, ◌+◌, ◌-◌, ◌*◌, ◌%◌, ◌^◌, OnOk, IfOk};
ghost use Rattle.audit_text.specs.Scanning.{closed, numbers_in, scanned, scanned_to};

use std::alloc::AllocError;

/// The number that is being read, and whether a space came before it.
// It is apart from the numbers before it, so that a byte costs no look at memory.
#[derive(Clone, Copy)]
pub struct Number {
    begun: bool,
    current: u64,
}

/// Reads the numbers of a line in place of what was read before.
#[tactic(auto, unfolding(crate::specs::Scanning::numbers_in))]
pub fn read_numbers(numbers: &mut Vec<u64>, line: &[u8]) -> Result<(), AllocError>
    ensures { OnOk result (numbers.new.items ≡ numbers_in line.now) }
{
    numbers.clear();
    let mut number = Number {
        begun: false,
        current: 0,
    };
    for b in line {
        number = next(numbers, number, *b)?;
    }
    close(numbers, number)
}

/// Reads a byte.
#[tactic(auto, unfolding(crate::specs::Scanning::scanned))]
fn next(numbers: &mut Vec<u64>, number: Number, b: u8) -> Result<Number, AllocError>
    ensures { IfOk result (λ next. scanned_to numbers.new.items next
        ≡ scanned (scanned_to numbers.old.items number) b) }
{
    if b == b' ' {
        close(numbers, number)?;
        return Ok(Number {
            begun: true,
            current: 0,
        });
    }
    Ok(Number {
        begun: number.begun,
        current: with_digit(number.current, b),
    })
}

/// Ends the number that is being read, if there is one.
fn close(numbers: &mut Vec<u64>, number: Number) -> Result<(), AllocError>
    ensures { OnOk result (numbers.new.items ≡ closed (scanned_to numbers.old.items number)) }
{
    if number.begun {
        numbers.push(number.current)?;
    }
    Ok(())
}

/// A number with a digit more, as far as it fits.
fn with_digit(current: u64, b: u8) -> u64
    ensures { result ≡ (current * 10 + (b - 48)) % 2 ^ 64 }
{
    let digit = b.saturating_sub(b'0');
    let next = current as u128 * 10 + digit as u128;
    (next % 18446744073709551616) as u64
}
