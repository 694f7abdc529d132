//! Where everything of a picture is drawn, and the text of it.
//!
//! `lay_out` gives each lane of a ring, an entity or a buffer a header row and as many rows as its bars need: each bar
//! is in the first row that is free where it begins, and no two bars of a row overlap. A fence has a row of its own.
//! What began before the drawn part of the run is cut at its edge (`specs/Layout`). `put_inside` puts the text of a
//! picture that is laid out so, to the byte (`specs/Svg`), and what bars tell is escaped (`specs/Escape`). The page
//! round it is the work of the crate above.
#![tactic(auto)]

mod axis;
mod bars;
mod ends;
mod fences;
mod head;
mod lane_bars;
mod layout;
mod owners;
mod pen;
mod placing;
mod signs;
mod svg;
mod text;
mod titles;
mod waits;
mod words;

pub use bars::put_entity_class;
pub use ends::is_marked;
pub use fences::Fences;
pub use lane_bars::LaneBars;
pub use layout::{LaneRows, Layout, has_credits, lay_out};
pub use owners::job;
pub use placing::{Placed, column_at};
pub use signs::{look_sign, look_word, sign_shape, sign_word};
pub use svg::put_inside;
pub use text::{put_number, put_text, put_wide};
