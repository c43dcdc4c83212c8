ghost use Rattle.std.specs.Prelude.{◌≡◌, ◌<◌, IfSome};
ghost use Rattle.made_traffic.specs.Sources.{next_source, source_before};

use crate::streams::stream;
use crate::traffic::Traffic;
use rand_core::utils::NextWord;
use rand_xoshiro::SplitMix64;
use std::marker::Model;

/// The source of one input: it tells slot by slot, from slot 0 on, for which output a cell comes. It draws a random word
/// for each slot, and one more for each burst that begins.
#[derive(Drop)]
pub struct Source {
    traffic: Traffic,
    input: u32,
    stream: SplitMix64,
    // The output of the burst that is under way.
    output: Option<u32>,
}

impl Model for Source {
    ghost use Rattle.made_traffic.specs.Sources.{IsSource, SourceValue};

    ghost Value = { SourceValue };

    ghost view = { λ s. record { traffic = s.traffic; input = s.input; state = record { stream = s.stream; output = s.output } } };

    ghost invariant = { λ s. IsSource (record { traffic = s.traffic; input = s.input; state = record { stream = s.stream; output = s.output } }) };
}

impl Source {
    /// The source of input `input`, one of the traffic's ports, before slot 0: by stream `input` of the seed.
    #[tactic(auto, unfolding(crate::specs::Sources::state_before))]
    pub fn new(traffic: Traffic, seed: u32, input: u32) -> Source
        requires { input < traffic.ports }
        ensures { result ≡ source_before traffic seed input 0 }
    {
        Source {
            traffic,
            input,
            stream: stream(seed, input as u8),
            output: None,
        }
    }

    /// The output of the cell that comes in the next slot, one of the traffic's ports; None where no cell comes.
    pub fn next(&mut self) -> Option<u32>
        ensures state { self.new ≡ next_source self.old }
        ensures output { result ≡ self.new.state.output }
        ensures port { IfSome result (λ j. j < self.old.traffic.ports) }
    {
        let word = self.stream.next_word();
        self.output = match self.output {
            Some(output) if self.traffic.goes_on(word) => Some(output),
            _ if self.traffic.begins(word) => {
                Some(self.traffic.output(self.input, self.stream.next_word()))
            },
            _ => None,
        };
        self.output
    }
}
