//! Laws of the words, as the contracts of functions that do nothing. Words are a list of texts, the first of which names
//! the command.

ghost use Rattle.std.specs.Prelude.{◌≡◌, ◌↔◌, ◌≤◌, ◌==◌, ◌++◌, ◌∷◌, [], List, Contains, IsPermutation, None, Some, codes, length};
ghost use Rattle.std.specs.List.{before_first};
ghost use Rattle.scheduler_names.specs.declared.names.SchedulerName.TheVariants.{Islip};
ghost use Rattle.switch_words.specs.Options.{Switch};
ghost use Rattle.switch_words.specs.Parts.{equals_sign};
ghost use Rattle.switch_words.specs.Reading.{CheckWords, JobWords, check, reading_of};
ghost use Rattle.word_grammar.specs.Grammar.{Argument, AreJob, AreWritten, IsJob, Text, given, names_in, option_at};

/// Words are read as a job exactly where the grammar says that they are this job. It says so of one job at most, and of none
/// exactly where the words are read as none, which is a usage fault.
pub fn words_are_read_by_the_grammar()
    ensures job { (words : List Text) (job : JobWords) → (reading_of words ≡ Some job) ↔ AreJob words job }
    ensures one { (words : List Text) (job other : JobWords) → AreJob words job → AreJob words other → job ≡ other }
    ensures usage { (words : List Text) → (reading_of words ≡ None) ↔ ((job : JobWords) → AreJob words job → ⊥) }
{}

/// Options may stand in any order and anywhere between the names: where the names keep their order, words are read alike,
/// whatever follows.
pub fn options_stand_in_any_order()
    ensures { (command : Text) (arguments others : List Argument) (before after rest : List Text)
        → AreWritten command arguments before → AreWritten command others after → IsPermutation arguments others → names_in arguments ≡ names_in others
        → reading_of (command ∷ (before ++ rest)) ≡ reading_of (command ∷ (after ++ rest)) }
{}

/// An option that is given twice is a usage fault, and so is one that the command lacks: before `--`, a word of `--` and
/// more of which what stands before its first `=` is no option.
pub fn faults_of_options()
    ensures twice { (command id : Text) (found : Switch) (arguments : List Argument) (before rest : List Text)
        → option_at command id ≡ Some found → AreWritten command arguments before
        → 2 ≤ length (given id arguments) → reading_of (command ∷ (before ++ rest)) ≡ None }
    ensures unknown { (command id : Text) (before after : List Text) → (id ≡ [] → ⊥)
        → option_at command (before_first (λ byte. byte == equals_sign) id) ≡ None → (Contains before (codes "--") → ⊥)
        → reading_of (command ∷ (before ++ (codes "--" ++ id) ∷ after)) ≡ None }
{}

/// Each word behind `--` is a name, whatever it begins with; and `-` alone is a name. For example `check -- FILE` checks any
/// FILE, and `check -` the file `-`.
pub fn names_that_begin_with_a_dash()
    ensures behind { (command : Text) (arguments : List Argument) (before further : List Text) (job : JobWords)
        → AreWritten command arguments before
        → IsJob command arguments (names_in arguments ++ further) job → reading_of (command ∷ (before ++ codes "--" ∷ further)) ≡ Some job }
    ensures file { (job : CheckWords) → job.scheduler ≡ Islip → reading_of (codes "check" ∷ codes "--" ∷ job.file ∷ []) ≡ Some (check job) }
    ensures dash { (job : CheckWords) → job.scheduler ≡ Islip → job.file ≡ codes "-" → reading_of (codes "check" ∷ codes "-" ∷ []) ≡ Some (check job) }
{}
