//! A queue of states for one mutator and one observer, in which nobody waits (AOSP's StateQueue), and the items of the slots travel with the states.
//!
//! Word 0 names the last state pushed, and word 1 the last one acknowledged. State k lies in cell (k - 1) mod 4, and its word is that number and 1; 0 stands for none.
//! Slots 0 to 3 of the table are the cells. After them comes a shelf for each slot of a state, which holds the item of that slot while it is on its way. The shelves change hands together with the words, all in one step.
#![tactic(auto)]

mod cell;
mod ends;
mod laws;
mod make;
mod mutator;
mod observer;
mod one_hand;
mod plays;
mod rule;
mod shelves;
mod view;
mod waits;

pub use af_base::Push;
pub use af_model::{Poll, QueueAnswer, QueueCall};
pub use laws::{
    a_look_after_a_meeting_sees_the_last_acknowledgement,
    a_look_after_a_meeting_sees_the_last_push, an_attached_item_stays_until_a_push_carries_it,
    each_item_has_one_holder, new_ends_are_the_new_queue, polled_are_pushed,
};
pub use make::{meet, queue};
pub use mutator::Mutator;
pub use observer::Observer;
pub use one_hand::{answer_each, answer_from_start};
pub use rule::{Fits, Queue};
