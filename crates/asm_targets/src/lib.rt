//! The targets of an assembly source: where labels and services are given, and the instructions that load a number or an address,
//! or reach one. A layer above uses that each is its definition; what the loads do when they are run, `asm_laws` says.
#![tactic(auto)]

mod expanding;
mod labels;

pub use expanding::{
    BRANCH_REACH, JUMP_REACH, number_count, offset_to, push_address, push_inst, push_number,
};
pub use labels::{Labels, Mark, Service, Services, add_label, add_service, mark_in, service_in};
