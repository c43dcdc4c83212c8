ghost use Rattle.std.specs.Prelude.{◌≡◌, ◌↔◌, IsTrue};
ghost use Rattle.outside.specs.Calls.{Names, count_of, one_more, raised};

/// A kind of call of `Files`.
#[derive(Clone, Copy, Debug, PartialEq, Eq, Hash)]
pub enum Call {
    Read,
    Begin,
    Write,
    Out,
    Err,
}

/// A call that is to fail: number 1 is the first call of its kind.
#[derive(Clone, Copy, Debug, PartialEq, Eq, Hash)]
pub struct Fail {
    pub call: Call,
    pub number: u32,
}

// A count for each kind of call. A count that would pass the last value stays there.
#[derive(Clone, Copy)]
pub(crate) struct CallCounts {
    pub(crate) read: u64,
    pub(crate) begin: u64,
    pub(crate) write: u64,
    pub(crate) out: u64,
    pub(crate) err: u64,
}

fn one_above(count: u64) -> u64
    ensures { result ≡ raised count }
{
    count.saturating_add(1)
}

impl CallCounts {
    pub(crate) const NONE: CallCounts = CallCounts {
        read: 0,
        begin: 0,
        write: 0,
        out: 0,
        err: 0,
    };

    pub(crate) fn count(&self, call: Call) -> u64
        ensures { result ≡ count_of call self.now }
    {
        match call {
            Call::Read => self.read,
            Call::Begin => self.begin,
            Call::Write => self.write,
            Call::Out => self.out,
            Call::Err => self.err,
        }
    }

    pub(crate) fn raise(&mut self, call: Call)
        ensures { self.new ≡ one_more call self.old }
    {
        match call {
            Call::Read => self.read = one_above(self.read),
            Call::Begin => self.begin = one_above(self.begin),
            Call::Write => self.write = one_above(self.write),
            Call::Out => self.out = one_above(self.out),
            Call::Err => self.err = one_above(self.err),
        }
    }
}

// The calls that are to fail, and how many of each kind were made.
#[derive(Drop)]
pub(crate) struct FailPlan {
    pub(crate) fails: Vec<Fail>,
    pub(crate) made: CallCounts,
}

impl FailPlan {
    // Counts the next call of this kind, and answers whether it is to fail.
    pub(crate) fn fails_next(&mut self, call: Call) -> bool
        ensures named { IsTrue result ↔ Names self.old.fails.items call (count_of call self.new.made) }
        ensures made { self.new.made ≡ one_more call self.old.made }
        ensures fails { self.new.fails ≡ self.old.fails }
    {
        self.made.raise(call);
        let number = self.made.count(call);
        self.fails.iter().any(|fail| fail.call == call && u64::from(fail.number) == number)
    }
}
