ghost use Rattle.std.specs.Prelude.{◌≡◌, ℕ, ◌+◌, ◌*◌, ◌<◌, ◌≤◌, ◌↔◌, not, map, take, drop, length, replicate, slice_set, vec_len, vec_capacity, ◌++◌, ◌∷◌, []};
ghost use Rattle.std.specs.List.{list_all};
ghost use Rattle.crossbar.specs.Crossing.{fetched};
ghost use Rattle.slot_histories.specs.Events.{no_post};
ghost use Rattle.board_state.specs.KeepingSteps.{with_place};

use cell_cutter::Cell;
use crossbar::Post;
use slot_match::{Match, Row};

// A post of nothing, which stands where a card has not posted.
fn blank_post() -> Post
    ensures { result ≡ no_post }
{
    Post {
        row: Row::empty(),
        cell: None,
        more: false,
    }
}

// The posts of a slot, by card.
pub(crate) fn posts_at(posts: &[Post], slot: usize, ports: usize) -> &[Post]
    requires { slot * ports + ports ≤ length posts.now }
    ensures { result.now ≡ take ports (drop (slot * ports) posts.now) }
{
    &posts[slot * ports..slot * ports + ports]
}

// Writes the card's post for the slot into its place. Where posts come in order, that is the next one;
// else posts of nothing are added up to it, for which there is room.
pub(crate) fn write_post(posts: &mut Vec<Post>, ports: usize, slot: usize, card: usize, post: &Post)
    requires { slot * ports + card < vec_capacity posts.old }
    ensures items { posts.new.items ≡ slice_set (with_place (slot * ports + card) posts.old.items) (slot * ports + card) post.now }
    ensures room { vec_capacity posts.new ≡ vec_capacity posts.old }
{
    let place = slot * ports + card;
    if place == posts.len() {
        posts.push_reserved(*post);
    } else {
        make_place(posts, place);
        posts[place] = *post;
    }
}

// Adds posts of nothing up to the place, if there is none.
fn make_place(posts: &mut Vec<Post>, place: usize)
    requires { place < vec_capacity posts.old }
    ensures items { posts.new.items ≡ with_place place posts.old.items }
    ensures room { vec_capacity posts.new ≡ vec_capacity posts.old }
{
    if posts.len() <= place {
        let missing = place - posts.len() + 1;
        push_blanks(posts, missing);
    }
}

// Adds `count` posts of nothing.
fn push_blanks(posts: &mut Vec<Post>, count: usize)
    requires { vec_len posts.old + count ≤ vec_capacity posts.old }
    ensures items { posts.new.items ≡ posts.old.items ++ replicate count no_post }
    ensures room { vec_capacity posts.new ≡ vec_capacity posts.old }
{
    for _ in 0..count {
        posts.push_reserved(blank_post());
    }
}

// Whether no card has more.
pub(crate) fn is_last(posts: &[Post]) -> bool
    ensures { result ≡ list_all (λ post. not post.more) posts.now }
{
    posts.iter().all(|post| !post.more)
}

// The cell that crosses to the output in the slot: what the input that fed it in the slot before posts there.
pub(crate) fn crossing(posts: &[Post], slot: usize, matched: &Match, output: u32) -> Option<Cell>
    requires output { output < length matched.now }
    requires posts { slot * length matched.now + length matched.now ≤ length posts.now }
    ensures { result ≡ fetched matched.now (map (λ post. post.cell) (take (length matched.now) (drop (slot * length matched.now) posts.now))) output }
{
    let ports = matched.ports() as usize;
    let slot_posts = posts_at(posts, slot, ports);
    let fed = matched.fed(output)?;
    slot_posts[fed.input as usize].cell
}
