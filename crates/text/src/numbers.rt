// Decimal numbers of 32 bits.
ghost use Rattle.std.specs.Prelude.{◌≡◌, ◌-◌, if◌then◌else◌, Some, None};
ghost use Rattle.text.specs.Decimal.{component_in, is_digit, natural_in};

// The digit's value.
pub fn digit(b: u8) -> Option<u8>
    ensures { result ≡ (if is_digit b then Some (b - 48) else None) }
{
    if b.is_ascii_digit() {
        Some(b - b'0')
    } else {
        None
    }
}

// The number that the digits of w write.
pub fn to_natural(w: &[u8]) -> Option<u32>
    ensures { result ≡ natural_in w.now }
{
    if w.is_empty() {
        return None;
    }
    let mut v: u32 = 0;
    for b in w {
        v = v.checked_mul(10)?.checked_add(u32::from(digit(*b)?))?;
    }
    Some(v)
}

// The number that w writes, with `-` before its digits where it is negative.
pub fn to_component(w: &[u8]) -> Option<i32>
    ensures { result ≡ component_in w.now }
{
    match w.strip_prefix(b"-") {
        Some(digits) => 0i32.checked_sub_unsigned(to_natural(digits)?),
        None => i32::try_from(to_natural(w)?).ok(),
    }
}
