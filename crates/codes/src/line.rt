// The type code that a line spells.
ghost use Rattle.std.specs.Prelude.{◌≡◌};
ghost use Rattle.codes.specs.Line.{code_of};

use text::spelt::digit_of;

// The first thing that is wrong with a line.
#[derive(Clone, Copy, Debug, PartialEq, Eq)]
pub enum SpellingError {
    Empty,
    // how many characters there are
    TooLong(usize),
    // which character, counted from 1, is the first that is no hex digit
    NotHex(usize),
}

pub fn code_of(line: &[u8]) -> Result<u32, SpellingError>
    ensures { result ≡ code_of line.now }
{
    if line.is_empty() {
        return Err(SpellingError::Empty);
    }
    if line.len() > 8 {
        return Err(SpellingError::TooLong(line.len()));
    }
    let mut code = 0;
    for (i, &b) in line.iter().enumerate() {
        let Some(digit) = digit_of(b) else {
            return Err(SpellingError::NotHex(i + 1));
        };
        code = 16 * code + digit;
    }
    Ok(code)
}
