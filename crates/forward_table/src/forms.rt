ghost use Rattle.std.specs.Prelude.{◌≡◌, ◌≤◌, ◌<◌, ◌^◌, ◌∷◌, IfSome, IfOk};
ghost use Rattle.rotating_pick.specs.PortSets.{IsAmong};
ghost use Rattle.forward_table.specs.Text.{slash, words, parts};
ghost use Rattle.forward_table.specs.Targets.{HasLength};
ghost use Rattle.forward_table.specs.Routes.{IsFan};
ghost use Rattle.forward_table.specs.Forms.{digit_of, number_of, number_up_to, address_of, is_star, prefix_from, target_of, ports_of, form_of};
ghost use Rattle.forward_table.specs.Steps.{with_port};

use crate::route_lines::{ADDRESS_BITS, Target};
use crate::text::{cut_at, first_word, last_part};
use rotating_pick::{MAX_PORTS, Ports, with};

// The greatest number of an address's octet.
const MAX_OCTET: u32 = 255;

/// What a route line says, before it is checked: the fan-out is a set of ports of the switch, or the
/// first port of the list that it does not have.
#[derive(Clone, Copy, Debug)]
pub(crate) struct Form {
    pub(crate) target: Target,
    pub(crate) fan: Result<Ports, u32>,
    pub(crate) level: u32,
}

/// The form of a route line whose first word is `target`, for a switch of `n` ports, 1 to 64; None
/// where it is of no such form.
#[tactic(auto, unfolding(crate::specs::Forms::form_of))]
pub(crate) fn form_of(n: u32, target: &[u8], rest: &[u8]) -> Option<Form>
    requires { n ≤ MAX_PORTS }
    ensures form { result ≡ form_of n (target.now ∷ words rest.now) }
    ensures length { IfSome result (λ form. HasLength form.target) }
    ensures fan { IfSome result (λ form. IfOk form.fan (IsFan n)) }
{
    let (ports, rest) = first_word(rest)?;
    let level = match first_word(rest) {
        None => 0,
        Some((level, rest)) => {
            if first_word(rest).is_some() {
                return None;
            }
            number_of(level)?
        }
    };
    Some(Form {
        target: target_of(target)?,
        fan: ports_of(n, ports)?,
        level,
    })
}

// The target that a word spells.
#[tactic(auto, unfolding(crate::specs::Forms::target_of))]
fn target_of(word: &[u8]) -> Option<Target>
    ensures target { result ≡ target_of word.now }
    ensures length { IfSome result HasLength }
{
    if is_star(word) {
        Some(Target::Fallback)
    } else {
        prefix_of(word)
    }
}

// Whether the word is `*`.
fn is_star(word: &[u8]) -> bool
    ensures { result ≡ is_star word.now }
{
    matches!(word, [b'*'])
}

// The prefix that a word spells, as `10.0.0.0/8`.
fn prefix_of(word: &[u8]) -> Option<Target>
    ensures target { result ≡ prefix_from (parts slash word.now) }
    ensures length { IfSome result HasLength }
{
    let (address, rest) = cut_at(word, b'/');
    let length = last_part(rest?, b'/')?;
    Some(Target::Prefix {
        address: address_of(address)?,
        length: number_up_to(ADDRESS_BITS, length)?,
    })
}

// The address of four octets.
#[tactic(auto, unfolding(crate::specs::Forms::address_of))]
fn address_of(text: &[u8]) -> Option<u32>
    ensures { result ≡ address_of text.now }
{
    let (first, rest) = cut_at(text, b'.');
    let (second, rest) = cut_at(rest?, b'.');
    let (third, rest) = cut_at(rest?, b'.');
    let fourth = last_part(rest?, b'.')?;
    let octets = [octet(first)?, octet(second)?, octet(third)?, octet(fourth)?];
    Some(u32::from_be_bytes(octets))
}

// A number of at most 255.
fn octet(text: &[u8]) -> Option<u8>
    ensures { result ≡ number_up_to 255 text.now }
{
    Some(number_up_to(MAX_OCTET, text)? as u8)
}

/// The ports of a list, or the first of them that is `n` or more; None where it is no list of numbers.
#[tactic(auto, unfolding(crate::specs::Forms::ports_of))]
fn ports_of(n: u32, list: &[u8]) -> Option<Result<Ports, u32>>
    requires { n ≤ MAX_PORTS }
    ensures ports { result ≡ ports_of n list.now }
    ensures fan { IfSome result (λ fan. IfOk fan (IsFan n)) }
{
    let mut fan = Ok(0);
    let mut rest = Some(list);
    while let Some(ports) = rest {
        let (text, after) = cut_at(ports, b',');
        fan = with_port(n, fan, number_of(text)?);
        rest = after;
    }
    Some(fan)
}

// The fan-out with one port more.
fn with_port(n: u32, fan: Result<Ports, u32>, port: u32) -> Result<Ports, u32>
    requires { n ≤ MAX_PORTS }
    ensures port { result ≡ with_port n fan port }
    ensures fan { IfOk fan (IsAmong n) → IfOk result (IsFan n) }
{
    match fan {
        Ok(set) if port < n => Ok(with(set, port)),
        Ok(_) => Err(port),
        Err(beyond) => Err(beyond),
    }
}

// A number of at most `most`.
fn number_up_to(most: u32, text: &[u8]) -> Option<u32>
    ensures number { result ≡ number_up_to most text.now }
    ensures bound { IfSome result (λ n. n ≤ most) }
{
    let number = number_of(text)?;
    if number <= most { Some(number) } else { None }
}

// A number of one to three digits, with no leading zero except for "0" itself.
#[tactic(auto, unfolding(crate::specs::Forms::number_of))]
fn number_of(text: &[u8]) -> Option<u32>
    ensures { result ≡ number_of text.now }
{
    match text {
        [a] => digit_of(*a),
        [a, b] if *a != b'0' => Some(10 * digit_of(*a)? + digit_of(*b)?),
        [a, b, c] if *a != b'0' => Some(100 * digit_of(*a)? + 10 * digit_of(*b)? + digit_of(*c)?),
        _ => None,
    }
}

// The value of a decimal digit.
fn digit_of(byte: u8) -> Option<u32>
    ensures digit { result ≡ digit_of byte }
    ensures bound { IfSome result (λ d. d < 10) }
{
    if byte.is_ascii_digit() {
        Some(u32::from(byte - b'0'))
    } else {
        None
    }
}
