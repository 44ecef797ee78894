//! What stands before the events of a Pajé trace: definitions, and the containers.

ghost use Rattle.std.specs.Prelude.{◌≡◌, ◌++◌, OnOk};
ghost use Rattle.std.specs.List.{flat_map};
ghost use Rattle.picture_texts.specs.Frames.{frame_of};
ghost use Rattle.picture_texts.specs.PajeHead.{definitions_of_types, definitions_of_states, definitions_of_links, types, states, links, events, kinds, definitions, processor_container, processor_containers, node_line, node_container, node_containers, thread_line, thread_container, head_text};

use crate::filling::push_filled;
use crate::layout::Layout;
use slot_space::Tid;
use std::alloc::AllocError;
use std::collections::BTreeMap;

/// The events that define types and values.
#[tactic(auto, unfolding(crate::specs::PajeHead::definitions_of_types))]
fn push_definitions_of_types(out: &mut Vec<u8>) -> Result<(), AllocError>
    ensures { OnOk result (out.new.items ≡ out.old.items ++ definitions_of_types) }
{
    out.extend_from_slice(
        b"%EventDef PajeDefineContainerType 1\n% Alias string\n% Type string\n% Name string\n%EndEventDef\n%EventDef PajeDefineStateType 2\n% Alias string\n% Type string\n% Name string\n%EndEventDef\n%EventDef PajeDefineEventType 3\n% Alias string\n% Type string\n% Name string\n%EndEventDef\n%EventDef PajeDefineLinkType 4\n% Alias string\n% Type string\n% StartContainerType string\n% EndContainerType string\n% Name string\n%EndEventDef\n%EventDef PajeDefineEntityValue 5\n% Alias string\n% Type string\n% Name string\n% Color color\n%EndEventDef\n",
    )
}

/// The events of containers, states and labels.
#[tactic(auto, unfolding(crate::specs::PajeHead::definitions_of_states))]
fn push_definitions_of_states(out: &mut Vec<u8>) -> Result<(), AllocError>
    ensures { OnOk result (out.new.items ≡ out.old.items ++ definitions_of_states) }
{
    out.extend_from_slice(
        b"%EventDef PajeCreateContainer 6\n% Time date\n% Alias string\n% Type string\n% Container string\n% Name string\n%EndEventDef\n%EventDef PajeDestroyContainer 7\n% Time date\n% Type string\n% Name string\n%EndEventDef\n%EventDef PajeSetState 8\n% Time date\n% Type string\n% Container string\n% Value string\n%EndEventDef\n%EventDef PajeNewEvent 9\n% Time date\n% Type string\n% Container string\n% Value string\n%EndEventDef\n",
    )
}

/// The events of links.
#[tactic(auto, unfolding(crate::specs::PajeHead::definitions_of_links))]
fn push_definitions_of_links(out: &mut Vec<u8>) -> Result<(), AllocError>
    ensures { OnOk result (out.new.items ≡ out.old.items ++ definitions_of_links) }
{
    out.extend_from_slice(
        b"%EventDef PajeStartLink 10\n% Time date\n% Type string\n% Container string\n% StartContainer string\n% Value string\n% Key string\n%EndEventDef\n%EventDef PajeEndLink 11\n% Time date\n% Type string\n% Container string\n% EndContainer string\n% Value string\n% Key string\n%EndEventDef\n",
    )
}

/// The types of containers, states, labels and links.
#[tactic(auto, unfolding(crate::specs::PajeHead::types))]
fn push_types(out: &mut Vec<u8>) -> Result<(), AllocError>
    ensures { OnOk result (out.new.items ≡ out.old.items ++ types) }
{
    out.extend_from_slice(
        b"1 cl 0 \"cluster\"\n1 no cl \"node\"\n1 pr no \"processor\"\n1 th cl \"thread\"\n2 sp pr \"runs\"\n2 st th \"state\"\n3 et th \"label\"\n3 en no \"label\"\n4 ln cl no no \"message\"\n",
    )
}

/// The states.
#[tactic(auto, unfolding(crate::specs::PajeHead::states))]
fn push_states(out: &mut Vec<u8>) -> Result<(), AllocError>
    ensures { OnOk result (out.new.items ≡ out.old.items ++ states) }
{
    out.extend_from_slice(
        b"5 busy sp \"run\" \"0.0 0.45 0.7\"\n5 idle sp \"idle\" \"0.9 0.9 0.9\"\n5 run st \"run\" \"0.0 0.45 0.7\"\n5 ready st \"ready\" \"0.87 0.87 0.87\"\n5 join st \"waits for a join\" \"0.84 0.37 0.0\"\n5 print st \"waits for a line\" \"0.34 0.71 0.91\"\n5 call st \"waits for a call\" \"0.8 0.47 0.65\"\n5 coming st \"on its way\" \"0.94 0.89 0.26\"\n5 gone st \"gone\" \"1.0 1.0 1.0\"\n",
    )
}

/// The links.
#[tactic(auto, unfolding(crate::specs::PajeHead::links))]
fn push_links(out: &mut Vec<u8>) -> Result<(), AllocError>
    ensures { OnOk result (out.new.items ≡ out.old.items ++ links) }
{
    out.extend_from_slice(
        b"5 move ln \"thread\" \"0.0 0.0 0.0\"\n5 ask ln \"ask\" \"0.84 0.37 0.0\"\n5 say ln \"line\" \"0.0 0.45 0.7\"\n5 answer ln \"answer\" \"0.0 0.62 0.45\"\n5 end ln \"end\" \"0.8 0.47 0.65\"\n5 remote ln \"remote call\" \"0.3 0.3 0.3\"\n",
    )
}

/// The kinds of events.
fn push_events(out: &mut Vec<u8>) -> Result<(), AllocError>
    ensures { OnOk result (out.new.items ≡ out.old.items ++ events) }
{
    push_definitions_of_types(out)?;
    push_definitions_of_states(out)?;
    push_definitions_of_links(out)
}

/// The types of what they speak of, and their values.
fn push_kinds(out: &mut Vec<u8>) -> Result<(), AllocError>
    ensures { OnOk result (out.new.items ≡ out.old.items ++ kinds) }
{
    push_types(out)?;
    push_states(out)?;
    push_links(out)
}

/// All definitions.
fn push_definitions(out: &mut Vec<u8>) -> Result<(), AllocError>
    ensures { OnOk result (out.new.items ≡ out.old.items ++ definitions) }
{
    push_events(out)?;
    push_kinds(out)
}

/// The container of a processor.
fn push_processor(out: &mut Vec<u8>, node: u16, vp: u16) -> Result<(), AllocError>
    ensures { OnOk result (out.new.items ≡ out.old.items ++ processor_container node vp) }
{
    push_filled(
        out,
        b"6 0 pA.B pr nA \"processor B of node A\"\n8 0 sp pA.B idle\n",
        &[node as u64, vp as u64],
    )
}

/// The containers of a node's processors.
fn push_processors(out: &mut Vec<u8>, processors: u16, node: u16) -> Result<(), AllocError>
    ensures { OnOk result (out.new.items ≡ out.old.items ++ processor_containers processors node) }
{
    for vp in 0..processors {
        push_processor(out, node, vp)?;
    }
    Ok(())
}

/// The container of a node.
#[tactic(auto, unfolding(crate::specs::PajeHead::node_line))]
fn push_node_line(out: &mut Vec<u8>, node: u16) -> Result<(), AllocError>
    ensures { OnOk result (out.new.items ≡ out.old.items ++ node_line node) }
{
    push_filled(out, b"6 0 nA no c \"node A\"\n", &[node as u64])
}

/// The containers of a node and of its processors.
fn push_node(out: &mut Vec<u8>, processors: u16, node: u16) -> Result<(), AllocError>
    ensures { OnOk result (out.new.items ≡ out.old.items ++ node_container processors node) }
{
    push_node_line(out, node)?;
    push_processors(out, processors, node)
}

/// The containers of the nodes.
fn push_nodes(out: &mut Vec<u8>, nodes: u16, processors: u16) -> Result<(), AllocError>
    ensures { OnOk result (out.new.items ≡ out.old.items ++ node_containers nodes processors) }
{
    for node in 0..nodes {
        push_node(out, processors, node)?;
    }
    Ok(())
}

/// The container of a thread.
fn push_thread(out: &mut Vec<u8>, t: &Tid) -> Result<(), AllocError>
    ensures { OnOk result (out.new.items ≡ out.old.items ++ thread_line t.now) }
{
    push_filled(
        out,
        b"6 0 tA.B th c \"thread A.B\"\n8 0 st tA.B gone\n",
        &[t.home.0 as u64, t.seq as u64],
    )
}

/// The containers of the threads.
fn push_threads(out: &mut Vec<u8>, lanes: &BTreeMap<Tid, u32>) -> Result<(), AllocError>
    ensures { OnOk result (out.new.items ≡ out.old.items ++ flat_map thread_container lanes.now.entries) }
{
    for (t, _) in lanes {
        push_thread(out, t)?;
    }
    Ok(())
}

/// What stands before the events.
pub(crate) fn push_head(out: &mut Vec<u8>, layout: &Layout) -> Result<(), AllocError>
    ensures { OnOk result (out.new.items ≡ out.old.items ++ head_text (frame_of layout.now)) }
{
    push_definitions(out)?;
    out.extend_from_slice(b"6 0 c cl 0 \"cluster\"\n")?;
    push_nodes(out, layout.nodes, layout.processors)?;
    push_threads(out, &layout.lanes)
}
