// Digits, numbers and bytes that a part of a line spells.
ghost use Rattle.std.specs.Prelude.{◌≡◌, ◌^◌, ◌<◌, ◌≤◌, length, IfSome, SomeIff};
ghost use Rattle.std.specs.Str.Parse.{IsNumeral, digits_value};
ghost use Rattle.text.specs.Spelt.{digit_of};

// A hex digit. The bound is there for callers that compute with the value.
pub fn digit_of(b: u8) -> Option<u32>
    ensures value { result ≡ digit_of b }
    ensures small { IfSome result (λ d. d < 16) }
{
    char::from(b).to_digit(16)
}

// Decimal digits, and nothing else. It ends at the first that is none, or that the number has no room for: `parse` would take a `+` before
// them, and a text, which is looked at to its end.
pub fn number_of(s: &[u8]) -> Option<usize>
    ensures { SomeIff result (IsNumeral 10 s.now × (digits_value 10 s.now < 2 ^ 64)) (digits_value 10 s.now) }
{
    if s.is_empty() {
        return None;
    }
    let mut number = 0usize;
    for &b in s {
        let digit = char::from(b).to_digit(10)?;
        number = number.checked_mul(10)?.checked_add(digit as usize)?;
    }
    Some(number)
}

// Hex digits in pairs, `-` for none; after them, if there is a `+`, how many zeros follow. The bytes are put at the start of `out`, which
// the caller lends, since there is no heap, and keeps; the result is how many there are.
pub fn bytes_of(s: &[u8], out: &mut [u8]) -> Option<usize>
    ensures { IfSome result (λ n. n ≤ length out.old) }
{
    let mut parts = s.splitn(2, |&b| b == b'+');
    let n = pairs_of(parts.next()?, out)?;
    let Some(zeros) = parts.next() else {
        return Some(n);
    };
    let end = n.checked_add(number_of(zeros)?)?;
    out.get_mut(n..end)?.fill(0);
    Some(end)
}

fn pairs_of(s: &[u8], out: &mut [u8]) -> Option<usize>
    ensures { IfSome result (λ n. n ≤ length out.old) }
{
    if s == b"-".as_slice() {
        return Some(0);
    }
    if s.is_empty() {
        return None;
    }
    let n = s.len() / 2;
    hex::decode_to_slice(s, out.get_mut(..n)?).ok()?;
    Some(n)
}
