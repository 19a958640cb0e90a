// Numbers in names.

ghost use Rattle.std.specs.Prelude.{◌≡◌, ◌↔◌, ℕ, ◌++◌, IfSome, IsTrue};
ghost use Rattle.bl_names.specs.Names.{IsNumber, IsWide, digits, manifest_name};

/// Whether a number in a name may be as wide as this text.
fn is_wide(text: &[u8]) -> bool
    ensures { IsTrue result ↔ IsWide text.now }
{
    match text.len() {
        6 => true,
        // 15 digits spell less than 10^15.
        7..=15 => text[0] != b'0',
        _ => false,
    }
}

/// The number that these digits spell, in six digits with zeros or in more without a leading zero; None
/// exactly for any other text.
fn number_in(text: &[u8]) -> Option<u64>
    ensures found { IfSome result (λ n. IsNumber n × (text.now ≡ digits n)) }
    ensures all { (n : ℕ) → IsNumber n → text.now ≡ digits n → result ≡ Some n }
{
    if !is_wide(text) {
        return None;
    }
    let mut number = 0;
    for digit in text {
        if !digit.is_ascii_digit() {
            return None;
        }
        number = number * 10 + u64::from(*digit - b'0');
    }
    if number == 0 { None } else { Some(number) }
}

/// The number that stands before this ending, and behind nothing; None exactly where none stands so.
pub fn number_before(text: &[u8], ending: &[u8]) -> Option<u64>
    ensures found { IfSome result (λ n. IsNumber n × (text.now ≡ digits n ++ ending.now)) }
    ensures all { (n : ℕ) → IsNumber n → text.now ≡ digits n ++ ending.now → result ≡ Some n }
{
    let digits = text.strip_suffix(ending)?;
    number_in(digits)
}

/// The number of the manifest of this name; None exactly for any other name.
pub fn manifest_number(text: &[u8]) -> Option<u64>
    ensures found { IfSome result (λ n. IsNumber n × (text.now ≡ manifest_name n)) }
    ensures all { (n : ℕ) → IsNumber n → text.now ≡ manifest_name n → result ≡ Some n }
{
    let digits = text.strip_prefix(b"MANIFEST-")?;
    number_in(digits)
}
