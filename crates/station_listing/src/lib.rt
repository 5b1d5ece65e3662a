//! What the program prints: the code, name and explanation of each fault and refusal, and what `show` lists of an image.
#![tactic(auto)]

mod codes;
mod explanations;
mod items;
mod listing;

pub use codes::{CODES, Code, each_code_is_listed, find_code};
pub use explanations::CodeEntry;
pub use items::Items;
pub use listing::{CheckByte, ListedCategory, ListedChain, Listing, list_chain, list_image};
