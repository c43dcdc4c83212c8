ghost use Rattle.std.specs.Prelude.{◌≡◌, ◌<◌, length, map, None, Some, IfOk, IfErr, OnOk};
ghost use Rattle.switch_plan.specs.Traffic.{file_of};
ghost use Rattle.switch_plan.specs.Refusals.{first_link, mixed_links};

use crate::fault::PlanFault;
use pcap_records::{Capture, Link};

/// The link type of all captures, of which there is one at least; two that differ are refused.
pub(crate) fn common_link(captures: &[Capture]) -> Result<Link, PlanFault>
    requires { 0 < length captures.now }
    ensures link { IfOk result (λ link. link ≡ first_link (map file_of captures.now)) }
    ensures same { OnOk result (mixed_links (map file_of captures.now) ≡ None) }
    ensures mixed { IfErr result (λ fault. mixed_links (map file_of captures.now) ≡ Some fault) }
{
    let link = captures[0].link;
    let first = link.number();
    for capture in captures {
        let other = capture.link.number();
        if other != first {
            return Err(PlanFault::MixedLink { first, other });
        }
    }
    Ok(link)
}
