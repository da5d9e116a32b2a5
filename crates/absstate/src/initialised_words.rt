//! The marks of a state as words. A state covers only states whose words have all bits of its own, which a few
//! comparisons decide.

ghost use Rattle.std.specs.Prelude.{◌≡◌, ◌<◌, true, false, length, IfNone, IfSome};
ghost use Rattle.semantics.specs.declared.limits.TheConstants.{STACK_BYTES};
ghost use Rattle.absstate.specs.InitialisedWords.{shifted, word_of, word_at, words_of, are_within};

use crate::abstract_state::InitialisedBytes;

/// The marks of a stack as words.
pub(crate) type InitialisedWords = [u64; 8];

/// The number of marks in a word.
const WORD_MARKS: usize = 64;

/// Returns a word shifted by one bit, with a mark at its lowest one.
fn shifted(word: u64, mark: bool) -> u64
    ensures { result ≡ shifted word mark }
{
    (word << 1) | u64::from(mark)
}

/// Returns marks as a word, the first one at its lowest bit.
fn word_of(marks: &[bool]) -> u64
    ensures { result ≡ word_of marks.now }
{
    let mut word = 0;
    for i in 0..marks.len() {
        word = shifted(word, marks[marks.len() - 1 - i]);
    }
    word
}

/// Returns the index of the first word with a bit that the other one at its place lacks.
pub(crate) fn first_outside(words: &InitialisedWords, others: &InitialisedWords) -> Option<usize>
    ensures none { IfNone result (are_within words.now others.now ≡ true) }
    ensures some { IfSome result (λ i. (i < length words.now) × (are_within words.now others.now ≡ false)) }
{
    for i in 0..words.len() {
        if words[i] & others[i] != words[i] {
            return Some(i);
        }
    }
    None
}

/// Returns whether one of some marks is set.
fn is_any_set(marks: &[bool]) -> bool
    ensures { result ≡ false → word_of marks.now ≡ 0 }
{
    let mut any = false;
    for i in 0..marks.len() {
        any |= marks[i];
    }
    any
}

impl InitialisedBytes {
    /// Returns the 64 marks from a multiple of 64 on, as a word.
    fn word(&self, index: usize) -> u64
        requires { index < 8 }
        ensures { result ≡ word_at self.now.cells index }
    {
        let first = WORD_MARKS * index;
        let marks = &self.cells()[first..first + WORD_MARKS];
        if is_any_set(marks) { word_of(marks) } else { 0 }
    }

    /// Returns the marks as words: 64 marks a word, the first one at its lowest bit.
    pub(crate) fn words(&self) -> InitialisedWords
        ensures { result ≡ words_of self.now.cells }
    {
        [
            self.word(0),
            self.word(1),
            self.word(2),
            self.word(3),
            self.word(4),
            self.word(5),
            self.word(6),
            self.word(7),
        ]
    }
}
