//! The assembler: the image of a source, or the one fault that counts; and the listing of an image.
//! A layer above uses that `assemble` gives exactly the image of the source's lines, and that its images are well formed.
#![tactic(auto)]

mod assembling;
mod emitting;
mod error;
mod faults;
mod layout;

pub use asm_list::list;
pub use asm_text::What;
pub use assembling::assemble;
pub use error::AsmError;
