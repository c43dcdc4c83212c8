ghost use Rattle.std.specs.Prelude.{◌≡◌, ◌≤◌, IfSome};
ghost use Rattle.std.specs.Char.{is_ascii_digit};
ghost use Rattle.std.specs.List.{list_all};
ghost use Rattle.command_words.specs.Numbers.{is_number, number_within};

/// The most digits of a number.
pub const MAX_DIGITS: usize = 10;

/// The number from `low` to `high` that a text writes with 1 to 10 decimal digits, leading zeros among them; None where
/// it writes none.
pub fn number_within(low: u32, high: u32, text: &str) -> Option<u32>
    ensures number { result ≡ number_within low high text.now }
    ensures bounds { IfSome result (λ n. (low ≤ n) × (n ≤ high)) }
{
    if !is_number(text) {
        return None;
    }
    match text.parse::<u32>() {
        Ok(number) if low <= number && number <= high => Some(number),
        _ => None,
    }
}

// Whether the text is 1 to 10 decimal digits. A sign is none.
#[tactic(auto, unfolding(crate::specs::Numbers::is_number))]
fn is_number(text: &str) -> bool
    ensures { result ≡ is_number text.now }
{
    !text.is_empty() && text.len() <= MAX_DIGITS && are_digits(text.as_bytes())
}

fn are_digits(bytes: &[u8]) -> bool
    ensures { result ≡ list_all is_ascii_digit bytes.now }
{
    bytes.iter().all(|byte| byte.is_ascii_digit())
}

/// The limit of a number's digits, by its number: ten. It does nothing; its contract says the number, which contracts
/// elsewhere name by the constant.
pub fn limits_are()
    ensures { MAX_DIGITS ≡ 10 }
{}
