//! The steps that a seat can make at the word, and what it knows of them.
use crate::word::Class;
use std::collections::LinkedList;

/// One step of a seat at the word of its lock, with the word that it found.
pub enum Step {
    /// A load.
    Look {
        found: u64,
    },
    /// A compare and exchange that asks for a hold of the class, and whether it was granted.
    Take {
        class: Class,
        found: u64,
        granted: bool,
    },
    /// The end of a hold of the class.
    Leave {
        class: Class,
        found: u64,
    },
    /// Another seat was made. It reads no word.
    Split,
}

/// A step, and how many steps all seats of the lock had made at its word before. A split, which reads no word, has no place.
pub struct Placed {
    pub place: u64,
    pub step: Step,
}

/// What a seat knows: the class that it holds, if any, and all steps that it made, in order.
/// No value of it is made, since it is for the proofs alone.
pub struct Known {
    pub holds: Option<Class>,
    pub steps: LinkedList<Placed>,
}
