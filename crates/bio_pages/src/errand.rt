//! What a seat of a shelf knows, as the rule of the shelf's table sees it. No value of these types is made but an errand's.
use crate::bio::Bio;
use std::collections::LinkedList;

/// A slot of a shelf, and the bio that is to come back to it.
#[derive(Drop)]
pub struct Errand<T> {
    pub slot: u32,
    pub bio: Bio<T>,
}

// What a seat is about to do.
pub(crate) enum Doing<T> {
    Idle,
    // Its bio has not come back yet.
    Waiting(Errand<T>),
    // It has the slot, to fill it.
    Filling(Errand<T>),
    // It has the slot, to empty it.
    Picking(Errand<T>),
}

// What a seat knows.
pub(crate) struct Known<T> {
    // Its part of what is counted down.
    pub amount: u64,
    pub doing: Doing<T>,
    // The owner's notes: for each slot the bio that it is for.
    pub noted: LinkedList<Option<Bio<T>>>,
    // Its last look found its own amount.
    pub last: bool,
    // The word that its last step found.
    pub found: u64,
}
