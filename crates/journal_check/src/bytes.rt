ghost use Rattle.std.specs.Prelude.{◌≡◌, ◌*◌, ◌≤◌, All, ◌<◌, ◌++◌, ◌↔◌, ◌⊎◌, ℕ, length, IfOk, OnOk};
ghost use Rattle.std.specs.List.{flat_map};
ghost use Rattle.rotating_pick.specs.PortSets.{Has};
ghost use Rattle.journal_check.specs.Steps.{IsFlag};
ghost use Rattle.journal_check.specs.Texts.{HasLevels, HaveLevels, number_of, sets_there, set_text, file_post, file_of, post_text, output_text};
ghost use Rattle.journal_check.specs.Texts.{header_text, file_text, IsFileOutput};

use crate::fields::{MAGIC, NO_INPUT};
use crate::header::HEADER_BYTES;
use crate::limits::MAX_JOURNAL_BYTES;
use board_state::Journal;
use crossbar::Post;
use rotating_pick::{Kind, LEVEL_COUNT, LEVELS, OutOfMemory, Ports, is_empty, with};
use slot_match::{Fed, Match, Row};
use std::alloc::Global;

// How many bytes a post has beside its sets: which sets there are, and `more`.
const POST_BYTES: u64 = 2;

// How many bytes a set of outputs has.
const SET_BYTES: u64 = 8;

// How many bytes an output has.
const OUTPUT_BYTES: u64 = 2;

/// How many bytes the file of a journal has. It takes no memory.
pub fn journal_len(journal: &Journal) -> u64
    ensures value { result ≡ length (file_text (file_of journal.now)) }

    // Each row of a journal has a set for each level of each kind.
    ensures levels { HaveLevels (file_of journal.now) }
{
    journal.legal();
    let mut len = HEADER_BYTES as u64;
    for slot in 0..journal.slots() {
        len += posts_len(journal.posts(slot)) + outputs_len(journal.decided(slot));
    }
    len
}

// How many bytes the outputs of a slot have.
pub(crate) fn outputs_len(matched: &Match) -> u64
    ensures value { result ≡ length (flat_map output_text matched.now) }
    ensures few { result ≤ 128 }
{
    OUTPUT_BYTES * u64::from(matched.ports())
}

// How many bytes the posts of a slot have.
pub(crate) fn posts_len(posts: &[Post]) -> u64
    requires { length posts.now ≤ 64 }
    ensures value { result ≡ length (flat_map (λ post. post_text (file_post post)) posts.now) }
    ensures few { result ≤ 66 * length posts.now }
    ensures levels { All (λ post. HasLevels post.row) posts.now }
{
    let mut len = 0;
    for post in posts {
        len += post_len(post);
    }
    len
}

// How many bytes a post has.
fn post_len(post: &Post) -> u64
    ensures value { result ≡ length (post_text (file_post post.now)) }
    ensures few { result ≤ 66 }
    ensures levels { HasLevels post.now.row }
{
    POST_BYTES + sets_len(&post.row.uni) + sets_len(&post.row.multi)
}

// How many bytes four sets have.
fn sets_len(sets: &[Ports; LEVEL_COUNT]) -> u64
    ensures value { result ≡ length (flat_map set_text sets.now) }
    ensures few { result ≤ 32 }
    ensures long { length sets.now ≡ LEVELS }
{
    let mut len = 0;
    for set in sets {
        len += set_len(*set);
    }
    len
}

// How many bytes a set has.
fn set_len(set: Ports) -> u64
    ensures value { result ≡ length (set_text set) }
    ensures few { result ≤ 8 }
{
    if is_empty(set) { 0 } else { SET_BYTES }
}

/// The file of a journal of at least one slot, whose bytes are at most 134,217,728: its ports, rounds
/// and slots, of each slot the rows and `more` of all cards, and the match. The cells are not kept.
///
/// The only error is out of memory. Room for all bytes is asked for before the first is written; no clause speaks of it.
pub fn journal_bytes(alloc: Global, journal: &Journal) -> Result<Vec<u8>, OutOfMemory>
    requires some { 0 < length journal.now.slots }
    requires size { length (file_text (file_of journal.now)) ≤ MAX_JOURNAL_BYTES }
    ensures { IfOk result (λ bytes. bytes.items ≡ file_text (file_of journal.now)) }
{
    journal.legal();
    let mut text = Vec::with_capacity(alloc, journal_len(journal) as usize)?;
    put_header(
        &mut text,
        journal.ports(),
        journal.rounds(),
        journal.slots(),
    )?;
    for slot in 0..journal.slots() {
        put_posts(&mut text, journal.posts(slot))?;
        put_outputs(&mut text, journal.decided(slot))?;
    }
    Ok(text)
}

// Appends the header of a file.
pub(crate) fn put_header(
    text: &mut Vec<u8>,
    ports: u32,
    rounds: u32,
    slots: u32,
) -> Result<(), OutOfMemory>
    requires ports { ports < 256 }
    requires rounds { rounds < 256 }
    ensures { OnOk result (text.new.items ≡ text.old.items ++ header_text ports rounds slots) }
{
    text.extend_from_slice(&(MAGIC as u32).to_be_bytes())?;
    text.push(ports as u8)?;
    text.push(rounds as u8)?;
    text.extend_from_slice(&0u16.to_be_bytes())?;
    text.extend_from_slice(&slots.to_be_bytes())?;
    Ok(())
}

// Appends the posts of a slot.
pub(crate) fn put_posts(text: &mut Vec<u8>, posts: &[Post]) -> Result<(), OutOfMemory>
    ensures { OnOk result (text.new.items ≡ text.old.items ++ flat_map (λ post. post_text (file_post post)) posts.now) }
{
    for post in posts {
        put_post(text, &post.row, post.more)?;
    }
    Ok(())
}

// Appends a post of this row.
fn put_post(text: &mut Vec<u8>, row: &Row, more: bool) -> Result<(), OutOfMemory>
    ensures { OnOk result (text.new.items ≡ text.old.items ++ post_text (record { row = row.now; more = more })) }
{
    text.push(sets_there(row))?;
    text.push(flag(more))?;
    put_sets(text, &row.uni)?;
    put_sets(text, &row.multi)?;
    Ok(())
}

// The number of a flag.
fn flag(set: bool) -> u8
    ensures { result ≡ number_of set }
{
    if set { 1 } else { 0 }
}

// Which sets of the row are not empty.
fn sets_there(row: &Row) -> u8
    ensures { result ≡ sets_there row.now }
{
    let unicast = add_flags(0, &row.uni, 0);
    add_flags(unicast, &row.multi, LEVELS) as u8
}

// Adds to the bits, from bit `first` on, which of the four sets are not empty.
fn add_flags(bits: Ports, sets: &[Ports; LEVEL_COUNT], first: u32) -> Ports
    requires { first ≤ LEVELS }
    ensures flags { (k : ℕ) → Has result k ↔ (Has bits k ⊎ IsFlag sets.now first LEVELS k) }
    ensures long { length sets.now ≡ LEVELS }
{
    let mut flags = bits;
    for level in 0..LEVELS {
        if !is_empty(sets[level as usize]) {
            flags = with(flags, first + level);
        }
    }
    flags
}

// Appends the sets that are not empty.
fn put_sets(text: &mut Vec<u8>, sets: &[Ports; LEVEL_COUNT]) -> Result<(), OutOfMemory>
    ensures { OnOk result (text.new.items ≡ text.old.items ++ flat_map set_text sets.now) }
{
    for set in sets {
        put_set(text, *set)?;
    }
    Ok(())
}

// Appends the set, if it is not empty.
fn put_set(text: &mut Vec<u8>, set: Ports) -> Result<(), OutOfMemory>
    ensures { OnOk result (text.new.items ≡ text.old.items ++ set_text set) }
{
    if !is_empty(set) {
        text.extend_from_slice(&set.to_be_bytes())?;
    }
    Ok(())
}

// Appends what feeds each output.
pub(crate) fn put_outputs(text: &mut Vec<u8>, matched: &Match) -> Result<(), OutOfMemory>
    ensures { OnOk result (text.new.items ≡ text.old.items ++ flat_map output_text matched.now) }
{
    for output in 0..matched.ports() {
        put_output(text, matched.fed(output))?;
    }
    Ok(())
}

// Appends what feeds an output.
fn put_output(text: &mut Vec<u8>, fed: Option<Fed>) -> Result<(), OutOfMemory>
    requires { IsFileOutput 64 fed }
    ensures { OnOk result (text.new.items ≡ text.old.items ++ output_text fed) }
{
    match fed {
        Some(fed) => {
            let odd = match fed.kind {
                Kind::Uni => 0,
                Kind::Multi => 1,
            };
            text.push(fed.input as u8)?;
            text.push(2 * fed.level + odd)?;
        }
        None => {
            text.push(NO_INPUT as u8)?;
            text.push(0)?;
        }
    }
    Ok(())
}
