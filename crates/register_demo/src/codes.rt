//! Made-up LEIs, and the issuers that manage them.
ghost use Rattle.std.specs.Prelude.{◌≡◌, ◌++◌, OnOk};
ghost use Rattle.lei_code.specs.Code.{IsWellFormed};
ghost use Rattle.lei_code.specs.Digits.{digits};
ghost use Rattle.register_demo.specs.Codes.{demo_code, in_18_digits, manager};

use itoa::write_digits;
use lei_code::{Lei, check_digits};
use lei_values::NoMemory;

// The issuer of the blocks 1, 3, 5 and so on.
const FIRST_ISSUER: &str = "506700GE1G29325QX363";

// The issuer of the blocks 2, 4, 6 and so on.
const SECOND_ISSUER: &str = "HWUPKR0MPOU8FGXBT394";

/// The issuer that manages the records of a block.
pub fn manager(block: u32) -> &'static str
    ensures { result.now ≡ manager block }
{
    if block % 2 == 1 {
        FIRST_ISSUER
    } else {
        SECOND_ISSUER
    }
}

/// The issuer of a block, as an LEI.
pub fn issuer_of(block: u32) -> Lei
    ensures { result ≡ manager block }
{
    match Lei::read(manager(block).as_bytes()) {
        Ok(lei) => lei,
        Err(_) => unreachable!(),
    }
}

// A number in 18 decimal digits, with leading zeros.
fn in_18_digits(i: u32) -> [u8; 18]
    ensures { result ≡ in_18_digits i }
{
    let mut text = [b'0'; 18];
    write_digits(u64::from(i), &mut text, 18);
    text
}

// The check digits for the first 18 characters of a code.
fn check_of(text: &[u8; 18]) -> [u8; 2]
    requires { IsWellFormed text.now }
    ensures { result ≡ digits text.now }
{
    match check_digits(text) {
        Ok(made) => made,
        Err(_) => unreachable!(),
    }
}

/// Appends the LEI of a number.
pub fn put_code(out: &mut Vec<u8>, i: u32) -> Result<(), NoMemory>
    ensures { OnOk result (out.new.items ≡ out.old.items ++ demo_code i) }
{
    let text = in_18_digits(i);
    out.extend_from_slice(&text)?;
    out.extend_from_slice(&check_of(&text))?;
    Ok(())
}
