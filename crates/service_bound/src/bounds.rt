ghost use Rattle.std.specs.Prelude.{◌≡◌, ◌<◌, ◌≤◌};
ghost use Rattle.service_bound.specs.Waits.{longest_service_at_line_rate, longest_service_by};

use rotating_pick::MAX_PORTS;

/// In how many slots a unicast request is served at the latest, where nothing of a better level and no
/// multicast of its own is posted: in a switch of `n` ports, 1 to 64, whose slots have `rounds` rounds, 1
/// or more. For 64 ports these are 8,002 slots of one round, and 129,088 of two or more.
pub fn longest_service(n: u32, rounds: u32) -> u32
    requires some { 0 < n }
    requires size { n ≤ MAX_PORTS }
    ensures { result ≡ longest_service_by n rounds }
{
    if rounds == 1 {
        2 * n * n + 2 - 3 * n
    } else {
        n * (n * n - n + 2) / 2
    }
}

/// The same for slots at line rate, as those of every run are: from one slot to the next each input begins to ask at
/// most one output. From three ports on this is one slot less: for 64 ports 8,001 slots of one round, and 129,087 of
/// two or more. Of two ports with two rounds or more it is three, whatever begins.
pub fn longest_service_at_line_rate(n: u32, rounds: u32) -> u32
    requires some { 0 < n }
    requires size { n ≤ MAX_PORTS }
    ensures { result ≡ longest_service_at_line_rate n rounds }
{
    if n > 2 {
        longest_service(n, rounds) - 1
    } else if n == 2 && rounds != 1 {
        3
    } else {
        longest_service(n, rounds)
    }
}
