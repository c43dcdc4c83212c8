ghost use Rattle.std.specs.Prelude.{◌≡◌, ◌≤◌};
ghost use Rattle.arrival_queues.specs.Queues.{queue_count};

use rotating_pick::MAX_PORTS;

/// Which cells of a switch wait in one queue.
#[derive(Clone, Copy, Debug, PartialEq, Eq)]
pub enum Queueing {
    /// Those from one input to one output: virtual output queues, a queue for each pair of ports.
    ByPair,
    /// Those from one input: a queue for each input, of which the first cell alone asks for its output.
    ByInput,
    /// Those to one output: a queue for each output.
    ByOutput,
}

impl Queueing {
    /// How many queues a switch of `ports` ports, at most 64, has.
    pub fn queue_count(self, ports: u32) -> u32
        requires { ports ≤ MAX_PORTS }
        ensures { result ≡ queue_count self ports }
    {
        match self {
            Queueing::ByPair => ports * ports,
            Queueing::ByInput | Queueing::ByOutput => ports,
        }
    }
}
