ghost use Rattle.std.specs.Prelude.{◌≡◌, ◌≤◌, ◌↔◌, ◌++◌, ℕ, List, [], true, length, take, IfSome, OnOk};
ghost use Rattle.outside.specs.Contents.{Contents, NoneRead};
ghost use Rattle.outside.specs.Faults.{NeverFall, NoneRose, OnlyRose, of_writes};
ghost use Rattle.outside.specs.WholeFiles.{Appends, Puts};

use outside::{Failed, Files};

/// A text that is given piece by piece.
pub trait Pieces {
    /// The bytes that are left of it.
    ghost left: { Self → List ℕ };

    /// Puts the next piece into a slice of 256 bytes or more, and answers how many bytes that are: 0 exactly where nothing
    /// is left of the text.
    fn put(&mut self, buf: &mut [u8]) -> usize
        requires { 256 ≤ length buf.old }
        ensures text { left self.old ≡ take result buf.new ++ left self.new }
        ensures room { result ≤ length buf.old }
        ensures end { result ≡ 0 ↔ left self.old ≡ [] };
}

/// A file that a job writes piece by piece.
#[derive(Drop)]
pub struct PiecedFile<P> {
    pub name: String,
    /// What gives its bytes.
    pub pieces: P,
    /// Room for a piece.
    pub room: Vec<u8>,
    ghost roomy: { 256 ≤ length room.items },
}

// Appends all pieces to a file that was begun, in as many calls as it takes.
fn append_pieces<F: Files, P: Pieces>(
    files: &mut F,
    name: &str,
    pieces: &mut P,
    buf: &mut [u8],
) -> Result<(), Failed>
    requires room { 256 ≤ length buf.old }
    requires begun { (c : Contents) → IfSome (F.seen c files.old) (λ d. d.begun name.now ≡ true) }
    ensures seen { (c : Contents) → Appends result (record { name = name.now; bytes = P.left pieces.old }) (F.faults files.old) (F.faults files.new)
        (F.seen c files.old) (F.seen c files.new) }
    ensures own { NoneRead F.seen files.old files.new }
    ensures no_fault { OnOk result (NoneRose (F.faults files.old) (F.faults files.new)) }
    ensures no_others { OnlyRose of_writes (F.faults files.old) (F.faults files.new) }
    ensures never_fall { NeverFall (F.faults files.old) (F.faults files.new) }
{
    let mut at = 0;
    let mut end = pieces.put(buf);
    while at < end {
        at += files.write(name, &buf[at..end])?;
        if at == end {
            at = 0;
            end = pieces.put(buf);
        }
    }
    Ok(())
}

/// Begins the named file and writes all pieces to it, each through `buf`, which has 256 bytes or more. Where a call fails,
/// the file is as before, or holds a first part of the bytes. It takes no memory.
pub(crate) fn put_pieces<F: Files, P: Pieces>(
    files: &mut F,
    name: &str,
    pieces: &mut P,
    buf: &mut [u8],
) -> Result<(), Failed>
    requires { 256 ≤ length buf.old }
    ensures seen { (c : Contents) → Puts result (record { name = name.now; bytes = P.left pieces.old }) (F.faults files.old) (F.faults files.new)
        (F.seen c files.old) (F.seen c files.new) }
    ensures own { NoneRead F.seen files.old files.new }
    ensures no_fault { OnOk result (NoneRose (F.faults files.old) (F.faults files.new)) }
    ensures no_others { OnlyRose of_writes (F.faults files.old) (F.faults files.new) }
    ensures never_fall { NeverFall (F.faults files.old) (F.faults files.new) }
{
    files.begin(name)?;
    append_pieces(files, name, pieces, buf)
}
