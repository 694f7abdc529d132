//! The engine that draws: from a script to a picture of what its commands do, between any reader and any writer.
//!
//! `draw` runs a script on a core as `drm_engine::replay` does, makes the picture of a part of the run (`drm_picture`),
//! lays it out and writes its text (`drm_svg`) on a page with a title above it and a legend below (`specs/Page`). The
//! legend has a key for each thing that occurs in the picture, and no other (`specs/Legend`). The clause `ending`
//! (`specs/Drawing`) says that where `draw` is done, that text was written, and that a part which it refuses as too
//! long has more than 5,000 commands. It ends as the engines of `drm_engine` do.
#![tactic(auto)]

mod credits;
mod drawing;
mod heading;
mod keys;
mod legend;
mod levels;
mod page;

pub use drawing::draw;
