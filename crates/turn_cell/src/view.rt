//! What a seat knows of its cell, as the rule of the table sees it.
use std::collections::LinkedList;

// What a seat knows. No value of it is made.
pub(crate) struct View<T, C, E> {
    // The value that the seat has won the gate for.
    pub held: Option<T>,
    // The beginning of the history that the seat has seen.
    pub seen: LinkedList<E>,
    // The entries that the seat made.
    pub made: LinkedList<E>,
    // What the seat claims, and nothing once it was joined away.
    pub claims: Option<C>,
    // The seat's part of the whole share.
    pub share: u64,
    // The words that its refused compare and exchanges found, each with the number of the entry whose turn held the gate.
    pub refused: LinkedList<(u64, u64)>,
    // What a seat that joined had seen, until a look has compared it.
    pub told: LinkedList<E>,
}
