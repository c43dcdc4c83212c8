ghost use Rattle.std.specs.Prelude.{◌≡◌, ◌<◌, ◌≤◌, drop, length, map, slice_set, take};

use crate::cards::Post;
use rotating_pick::{MAX_PORTS, PORT_COUNT};
use slot_match::Row;

/// Writes the row of each post, of which there are at most 64, to its place of the table. The places
/// beyond the posts stay.
pub fn put_rows(rows: &mut [Row; PORT_COUNT], posts: &[Post])
    requires { length posts.now ≤ MAX_PORTS }
    ensures rows { take (length posts.now) rows.new ≡ map (λ post. post.row) posts.now }
    ensures others { drop (length posts.now) rows.new ≡ drop (length posts.now) rows.old }
    ensures long { length rows.new ≡ MAX_PORTS }
{
    for (place, post) in posts.iter().enumerate() {
        put_row(rows, place, post);
    }
}

// Puts the row of the post at the place.
fn put_row(rows: &mut [Row; PORT_COUNT], place: usize, post: &Post)
    requires { place < MAX_PORTS }
    ensures rows { rows.new ≡ slice_set rows.old place post.now.row }
    ensures long { length rows.new ≡ MAX_PORTS }
{
    rows[place] = post.row;
}
