ghost use Rattle.std.specs.Prelude.{◌≡◌, ℕ, List, [], ◌++◌};

/// A value that stands for a list of entries, which acts only add to.
///
/// It is `Drop`, since a turn lock that finds no memory lets its value go.
pub trait Kept: Drop {
    /// What the list has.
    type Entry;

    /// The list of entries that the value stands for.
    ghost entries: { Self → List Self.Entry };

    /// The fixed numbers, which no act changes.
    ghost numbers: { Self → List ℕ };

    /// Which lists of entries a seat of this number may add in one turn.
    ghost may_add: { ℕ → List Self.Entry → Type 0 };

    ghost may_add_none: { (seat : ℕ) → may_add seat [] };
}

/// What one turn does to the value.
pub trait Act<K: Kept> {
    /// What the act answers.
    type Out;

    /// The entries that the act adds, by its own contents, the fixed numbers and the entries before.
    ghost adds: { Self → List ℕ → List K.Entry → List K.Entry };

    /// The answers that it may give, by the same.
    ghost answers: { Self → List ℕ → List K.Entry → Self.Out → Type 0 };

    /// Works on the value. It may be called on every value: an act that the value does not allow adds
    /// no entry.
    fn apply(self, kept: &mut K) -> Self::Out
        ensures numbers { K.numbers kept.new ≡ K.numbers kept.old }
        ensures entries { K.entries kept.new ≡ K.entries kept.old ++ adds self (K.numbers kept.old) (K.entries kept.old) }
        ensures answer { answers self (K.numbers kept.old) (K.entries kept.old) result };
}
