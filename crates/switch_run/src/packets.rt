ghost use Rattle.std.specs.Prelude.{◌≡◌, option_map};
ghost use Rattle.packet_times.specs.KeptSteps.{left};

use job_files::Pieces;
use packet_times::PacketRows;

/// The rows of a packets file, as the pieces that a job writes.
#[derive(Drop)]
pub(crate) struct PacketPieces {
    rows: PacketRows,
}

impl Pieces for PacketPieces {
    ghost left = { λ pieces. left pieces.rows };

    fn put(&mut self, buf: &mut [u8]) -> usize {
        self.rows.put(buf)
    }
}

/// The rows of a packets file, where there is one, as pieces.
pub(crate) fn pieces_of(rows: Option<PacketRows>) -> Option<PacketPieces>
    ensures { option_map (λ pieces. left pieces.rows) result ≡ option_map left rows }
{
    match rows {
        Some(rows) => Some(PacketPieces { rows }),
        None => None,
    }
}
