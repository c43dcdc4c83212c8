ghost use Rattle.std.specs.Prelude.{◌≡◌, Some, ◌<◌, ◌≤◌};
ghost use Rattle.slot_match.specs.Rows.{AreWithin};
ghost use Rattle.slot_match.specs.Matches.{IsMatch};
ghost use Rattle.eslip_rounds.specs.Steps.{AreOffers, IsOffered};
ghost use Rattle.unicast_slots.specs.RoundSteps.{GrantsUnicast, offers_of};

use crate::rows::UnicastRows;
use pointer_state::Pointers;
use rotating_pick::{
    MAX_PORTS, PORT_COUNT, Ports, contains, intersection, lowest, pick, with, without,
};
use slot_match::Match;

/// What the inputs are granted.
#[derive(Drop)]
pub(crate) struct Offers {
    /// The inputs that are granted.
    pub granted: Ports,
    /// For each of them the outputs that grant it.
    pub outputs: [Ports; PORT_COUNT],
}

/// No offer.
pub(crate) fn no_offers() -> Offers {
    Offers {
        granted: 0,
        outputs: [0; PORT_COUNT],
    }
}

/// Offers what each free output grants in a round that starts from this match. What `offers` held is not read.
pub(crate) fn grant_all(
    n: u32,
    rows: &UnicastRows,
    p: &Pointers,
    matched: &Match,
    offers: &mut Offers,
)
    requires size { n ≤ MAX_PORTS }
    requires ports { p.now.ports ≡ n }
    requires rows { AreWithin n rows.now }
    requires whole { IsMatch n matched.now }
    ensures { AreOffers (λ i j rank. GrantsUnicast n rows.now p.now matched.now i j × (rank ≡ 0)) (offers_of offers.new) }
{
    let free = matched.free_inputs();
    let mut rest = intersection(matched.free_outputs(), rows.asked());
    offers.granted = 0;
    while let Some(j) = lowest(rest) {
        let asking = intersection(rows.asking(j), free);
        if let Some(i) = pick(n, p.grant(j, 0), asking) {
            offer(offers, i, j);
        }
        rest = without(rest, j);
    }
}

// Adds what an output grants to what the input is offered.
fn offer(offers: &mut Offers, input: u32, output: u32)
    requires input_in { input < MAX_PORTS }
    requires output_in { output < MAX_PORTS }
    ensures { IsOffered (offers_of offers.old) (offers_of offers.new) input output 0 }
{
    let at = input as usize;
    let before = if contains(offers.granted, input) {
        offers.outputs[at]
    } else {
        0
    };
    offers.outputs[at] = with(before, output);
    offers.granted = with(offers.granted, input);
}
