//! What a card holds, in words for a person. That the card is left as it was is proved; the words and their layout are tested.

#![tactic(auto)]

mod card_words;
mod files;
mod list_words;
mod needed;
mod subscriber_words;

pub use card_words::describe_card;
pub use subscriber_words::describe_subscriber;
