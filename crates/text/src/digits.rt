// Words of digits: hexadecimal bytes and decimal numbers.
ghost use Rattle.std.specs.Prelude.{◌≡◌, ◌≤◌, ◌%◌, get_or};
ghost use Rattle.text.specs.Digits.{hex_digit, hex_byte, hex_wrong, number_of_word};

// The half byte at a place; 0 past the end, and for what is no digit.
#[tactic(auto, using(crate::proofs::DigitLaws::digit_is))]
fn half_at(word: &[u8], i: usize) -> u8
    ensures { (result ≡ hex_digit (get_or word.now i 0) % 16) × (result ≤ 15) }
{
    let digit = word.get(i).and_then(|b| char::from(*b).to_digit(16));
    digit.unwrap_or(0) as u8
}

// The byte of the two digits from a place on.
#[tactic(auto, using(crate::proofs::DigitLaws::byte_past), unfolding(crate::specs::Digits::hex_byte))]
pub fn hex_byte(word: &[u8], i: usize) -> u8
    ensures { result ≡ hex_byte word.now i }
{
    if word.len() <= i {
        return 0;
    }
    16 * half_at(word, i) + half_at(word, i + 1)
}

// Whether a word is not so many hexadecimal digits.
#[tactic(auto, using(crate::proofs::DigitLaws::hex_wrong_is))]
pub fn hex_wrong(word: &[u8], digits: usize) -> bool
    ensures { result ≡ hex_wrong digits word.now }
{
    word.len() != digits || word.iter().any(|b| !char::from(*b).is_digit(16))
}

// The number of a word in decimal. (`parse` would take a sign.)
#[tactic(auto, using(crate::proofs::DigitLaws::decimal_words))]
pub fn number_of(word: &[u8]) -> Option<usize>
    ensures { result ≡ number_of_word word.now }
{
    if word.is_empty() {
        return None;
    }
    let mut value: usize = 0;
    for &b in word {
        let digit = char::from(b).to_digit(10)?;
        value = value.checked_mul(10)?.checked_add(digit as usize)?;
    }
    Some(value)
}
