//! What the subcommands list, as rows of cells that are printed as text or as JSON; and the subcommands `show` and `layout`.
#![tactic(auto)]

mod cell;
mod image;
mod items;
mod lines;
mod rows;
mod show;
mod value;

pub use cell::{Cell, END, bare, data, named, said, said_place};
pub use items::{Line, lines_of};
pub use lines::{LineRows, RefusedCommand};
pub use rows::{Form, Rows};
pub use show::{ShowOptions, put_layout, show_image, show_layout};
pub use value::{Value, printed};
