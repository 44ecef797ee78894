//! The text of a picture, as SVG and as a Pajé trace.
//! A layer above uses that each shape is written once, by its definition, and that no name can end an element.
#![tactic(auto)]

mod axis;
mod escaping;
mod extent;
mod filling;
mod lanes;
mod laws;
mod layout;
mod numbers;
mod paje;
mod paje_head;
mod paje_lines;
mod parts;
mod svg;
mod svg_frame;
mod svg_shapes;
mod words;

pub use laws::names_are_escaped;
pub use paje::paje_text;
pub use svg::svg_text;
