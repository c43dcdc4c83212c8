/// The pointers of one level: for each output where it grants from, and for each input where it
/// accepts from.
#[derive(Clone, Copy, Debug, PartialEq, Eq)]
pub struct UniPointers {
    pub grant: [u32; 64],
    pub accept: [u32; 64],
}

/// The match of one level: for each output the input that feeds it, None at a free output and beyond
/// the ports.
#[derive(Clone, Copy, Debug, PartialEq, Eq)]
pub struct UniMatch {
    pub fed: [Option<u32>; 64],
}
