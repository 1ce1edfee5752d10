//! The classes, and the word that tells one of them with its number of holds.
ghost use Rattle.std.specs.Prelude.{◌≡◌, ◌+◌, ◌%◌, ◌^◌, ◌<◌, false};
ghost use Rattle.std.specs.Bool.{OnFalse};
ghost use Rattle.inode_lock.specs.Word.{class_number, excludes as excludes_class, word_of, holds_in, StaysShut};

// A class is told above the low 32 bits of the word, which count its holds.
const PLACE: u64 = 1 << 32;

// A count that no hold is added to.
const FULL: u64 = PLACE - 1;

/// A class of holds. A cached or a direct hold is shared with others of its class, an exclusive hold with none.
#[derive(Clone, Copy)]
pub enum Class {
    Cached,
    Direct,
    Exclusive,
}

impl Class {
    // What the word tells the class by.
    fn number(self) -> u64
        ensures { result ≡ class_number self }
    {
        match self {
            Class::Cached => 1,
            Class::Direct => 2,
            Class::Exclusive => 3,
        }
    }

    // Whether a word shuts out one more hold of the class.
    pub(crate) fn is_excluded_by(self, word: u64) -> bool
        ensures { result ≡ excludes_class self word }
    {
        let holds = word % PLACE;
        if holds == 0 {
            return false;
        }
        if holds == FULL {
            return true;
        }
        if word / PLACE != self.number() {
            return true;
        }
        matches!(self, Class::Exclusive)
    }

    // The word with one more hold, which is of the class.
    pub(crate) fn joined(self, word: u64) -> u64
        requires { excludes_class self word ≡ false }
        ensures { result ≡ word_of self (holds_in word + 1) }
    {
        self.number() * PLACE + word % PLACE + 1
    }
}

// How many holds a word tells.
pub(crate) fn count_in(word: u64) -> u32
    ensures { result ≡ holds_in word }
{
    (word % PLACE) as u32
}

// Whether a leave at this word may let in a class that it excluded: it ends the last hold, or makes room for one more.
pub(crate) fn lets_others_in(word: u64) -> bool
    ensures { OnFalse result (StaysShut word) }
{
    let holds = word % PLACE;
    if holds == 1 {
        return true;
    }
    if holds == FULL {
        return true;
    }
    false
}
