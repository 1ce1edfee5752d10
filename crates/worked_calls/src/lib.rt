//! Tests of the input and output calls at a mount of one file, with answers that are worked out by hand.
#![tactic(auto)]

#[cfg(test)]
mod buffers;
#[cfg(test)]
mod call_texts;
#[cfg(test)]
mod calls;
#[cfg(test)]
mod clears;
#[cfg(test)]
mod data_calls;
#[cfg(test)]
mod ends;
#[cfg(test)]
mod files;
#[cfg(test)]
mod held;
#[cfg(test)]
mod meetings;
#[cfg(test)]
mod nowait;
#[cfg(test)]
mod page_calls;
#[cfg(test)]
mod passes;
#[cfg(test)]
mod reads;
#[cfg(test)]
mod runs;
#[cfg(test)]
mod sizes;
#[cfg(test)]
mod writebacks;
#[cfg(test)]
mod writes;
