ghost use Rattle.std.specs.Prelude.{◌≡◌, ◌≤◌, ◌↔◌, IsTrue};
ghost use Rattle.slot_histories.specs.Legal.{IsGrantedCell, IsAccepted};

use cell_cutter::Cell;
use crossbar::Post;
use slot_match::{Row, Served};

/// Whether the post is accepted from the card, which posted the row `last` for the slot before and was
/// served there so; an empty row and None stand for a card that has not posted yet.
///
/// It is where it names none but the ports, keeps what was not served, has the cell that was granted and
/// no other, and says that more is to come where it names an output.
pub fn is_accepted(ports: u32, card: u32, last: &Row, served: Option<Served>, post: &Post) -> bool
    ensures { IsTrue result ↔ IsAccepted ports card last.now served post.now }
{
    post.row.within(ports)
        && post.row.keeps(last, served)
        && is_granted(card, served, &post.cell)
        && (post.more || post.row.is_empty())
}

// Whether the card posts a cell exactly where it was served, and the one that was granted.
fn is_granted(card: u32, served: Option<Served>, cell: &Option<Cell>) -> bool
    ensures { IsTrue result ↔ IsGrantedCell card served cell.now }
{
    match (served, cell) {
        (None, None) => true,
        (Some(served), Some(cell)) => is_from(card, served, cell),
        _ => false,
    }
}

// Whether the cell is of the card, and of the level and kind that was served.
fn is_from(card: u32, served: Served, cell: &Cell) -> bool
    ensures { IsTrue result ↔ IsGrantedCell card (Some served) (Some cell.now) }
{
    cell.is_of_form()
        && u32::from(cell.input) == card
        && cell.level == served.level
        && cell.kind == served.kind
}
