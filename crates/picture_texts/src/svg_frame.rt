//! What stands round the shapes of an SVG: its head, the legend, the ticks of the axis, and the names of rows and lanes.

ghost use Rattle.std.specs.Prelude.{◌≡◌, ◌++◌, OnOk};
ghost use Rattle.std.specs.List.{flat_map};
ghost use Rattle.picture_texts.specs.Frames.{frame_of};
ghost use Rattle.picture_texts.specs.Escaping.{escaped};
ghost use Rattle.picture_texts.specs.SvgFrame.{style, lines, head_of_arrows, legend_of_runs, legend_of_waits, legend_of_arrows, legend_of_marks, look, legend, names, width, height, opening_form, opening, head, step_of, tick_at, tick, ticks, node_name, node_names, lane_name, frame_text, bottom};

use crate::axis::{Axis, across};
use crate::escaping::push_escaped;
use crate::filling::push_filled;
use crate::layout::{Layout, lane_down, lanes_top, row_down};
use slot_space::Tid;
use std::alloc::AllocError;
use std::collections::BTreeMap;

/// The colours, which a colour-blind reader tells apart, and the shapes of what waits.
#[tactic(auto, unfolding(crate::specs::SvgFrame::style))]
fn push_style(out: &mut Vec<u8>) -> Result<(), AllocError>
    ensures { OnOk result (out.new.items ≡ out.old.items ++ style) }
{
    out.extend_from_slice(
        b"<style>.n0{fill:#e69f00}.n1{fill:#56b4e9}.n2{fill:#009e73}.n3{fill:#f0e442}.n4{fill:#0072b2}.n5{fill:#d55e00}.n6{fill:#cc79a7}.n7{fill:#000000}.ready{fill:#999999;fill-opacity:0.35}.join{fill:none;stroke:#d55e00;stroke-width:2}.print{fill:none;stroke:#0072b2;stroke-width:2;stroke-dasharray:2 2}.call{fill:none;stroke:#777777}.coming{fill:none;stroke:#000000;stroke-dasharray:6 3}.gone{fill:none}",
    )
}

/// The shapes of arrows and letters.
#[tactic(auto, unfolding(crate::specs::SvgFrame::lines))]
fn push_lines(out: &mut Vec<u8>) -> Result<(), AllocError>
    ensures { OnOk result (out.new.items ≡ out.old.items ++ lines) }
{
    out.extend_from_slice(
        b".move{stroke:#000000;stroke-width:3}.ask{stroke:#d55e00}.say{stroke:#0072b2;stroke-dasharray:2 2}.answer{stroke:#009e73}.end{stroke:#cc79a7;stroke-dasharray:6 3}.remote{stroke:#000000;stroke-dasharray:2 4}.tick{stroke:#cccccc}.sign{font-weight:bold}.slots{font-style:italic}.fault{fill:#d55e00;font-weight:bold;font-size:14px}</style>\n",
    )
}

/// The head of an arrow.
#[tactic(auto, unfolding(crate::specs::SvgFrame::head_of_arrows))]
fn push_head_of_arrows(out: &mut Vec<u8>) -> Result<(), AllocError>
    ensures { OnOk result (out.new.items ≡ out.old.items ++ head_of_arrows) }
{
    out.extend_from_slice(
        b"<defs><marker id='a' viewBox='0 0 8 8' refX='8' refY='4' markerWidth='7' markerHeight='7' orient='auto' markerUnits='userSpaceOnUse'><path d='M0 0L8 4L0 8z'/></marker></defs>\n",
    )
}

/// What the colours of runs stand for.
#[tactic(auto, unfolding(crate::specs::SvgFrame::legend_of_runs))]
fn push_legend_of_runs(out: &mut Vec<u8>) -> Result<(), AllocError>
    ensures { OnOk result (out.new.items ≡ out.old.items ++ legend_of_runs) }
{
    out.extend_from_slice(
        b"<rect width='100%' height='100%' fill='#ffffff'/><text x='4' y='14'>runs on node</text><rect class='n0' x='90' y='4' width='16' height='12'/><text x='108' y='14'>0</text><rect class='n1' x='124' y='4' width='16' height='12'/><text x='142' y='14'>1</text><rect class='n2' x='158' y='4' width='16' height='12'/><text x='176' y='14'>2</text><rect class='n3' x='192' y='4' width='16' height='12'/><text x='210' y='14'>3</text><rect class='n4' x='226' y='4' width='16' height='12'/><text x='244' y='14'>4</text><rect class='n5' x='260' y='4' width='16' height='12'/><text x='278' y='14'>5</text><rect class='n6' x='294' y='4' width='16' height='12'/><text x='312' y='14'>6</text><rect class='n7' x='328' y='4' width='16' height='12'/><text x='346' y='14'>7</text>\n",
    )
}

/// What the shapes of waits stand for.
#[tactic(auto, unfolding(crate::specs::SvgFrame::legend_of_waits))]
fn push_legend_of_waits(out: &mut Vec<u8>) -> Result<(), AllocError>
    ensures { OnOk result (out.new.items ≡ out.old.items ++ legend_of_waits) }
{
    out.extend_from_slice(
        b"<text x='4' y='32'>waits</text><rect class='ready' x='90' y='22' width='16' height='12'/><text x='112' y='32'>for a processor</text><rect class='join' x='220' y='22' width='16' height='12'/><text x='242' y='32'>for a join</text><rect class='print' x='320' y='22' width='16' height='12'/><text x='342' y='32'>for a line</text><rect class='call' x='420' y='22' width='16' height='12'/><text x='442' y='32'>for another call</text><rect class='coming' x='550' y='22' width='16' height='12'/><text x='572' y='32'>on its way</text>\n",
    )
}

/// What the lines of arrows stand for.
#[tactic(auto, unfolding(crate::specs::SvgFrame::legend_of_arrows))]
fn push_legend_of_arrows(out: &mut Vec<u8>) -> Result<(), AllocError>
    ensures { OnOk result (out.new.items ≡ out.old.items ++ legend_of_arrows) }
{
    out.extend_from_slice(
        b"<text x='4' y='50'>arrows</text><line class='move' x1='90' y1='46' x2='110' y2='46' marker-end='url(#a)'/><text x='116' y='50'>thread</text><line class='ask' x1='170' y1='46' x2='190' y2='46' marker-end='url(#a)'/><text x='196' y='50'>ask</text><line class='say' x1='240' y1='46' x2='260' y2='46' marker-end='url(#a)'/><text x='266' y='50'>line</text><line class='answer' x1='310' y1='46' x2='330' y2='46' marker-end='url(#a)'/><text x='336' y='50'>answer</text><line class='end' x1='390' y1='46' x2='410' y2='46' marker-end='url(#a)'/><text x='416' y='50'>end</text><line class='remote' x1='460' y1='46' x2='480' y2='46' marker-end='url(#a)'/><text x='486' y='50'>remote call</text>\n",
    )
}

/// What the letters stand for.
#[tactic(auto, unfolding(crate::specs::SvgFrame::legend_of_marks))]
fn push_legend_of_marks(out: &mut Vec<u8>) -> Result<(), AllocError>
    ensures { OnOk result (out.new.items ≡ out.old.items ++ legend_of_marks) }
{
    out.extend_from_slice(
        b"<text x='4' y='68'>marks: b born, e ended, f fault, l line, h halted; slots: t took, g gave, n lent, i in hand, d decided, r returned, o home; bubbles: v down, u burst, m gathered; k dropped</text>\n",
    )
}

/// How everything looks.
fn push_look(out: &mut Vec<u8>) -> Result<(), AllocError>
    ensures { OnOk result (out.new.items ≡ out.old.items ++ look) }
{
    push_style(out)?;
    push_lines(out)?;
    push_head_of_arrows(out)
}

/// What colours, lines and letters stand for.
fn push_legend(out: &mut Vec<u8>) -> Result<(), AllocError>
    ensures { OnOk result (out.new.items ≡ out.old.items ++ legend) }
{
    push_legend_of_runs(out)?;
    push_legend_of_waits(out)?;
    push_legend_of_arrows(out)?;
    push_legend_of_marks(out)
}

/// How far down the lanes end.
fn bottom(layout: &Layout) -> u64
    ensures { result ≡ bottom (frame_of layout.now) }
{
    lane_down(layout.nodes, layout.processors, layout.count)
}

/// How wide a picture is.
fn width(layout: &Layout) -> u64
    ensures { result ≡ width (frame_of layout.now) }
{
    across(&layout.axis, layout.axis.last)
        .saturating_add(40)
        .max(1100)
}

/// How high it is.
fn height(layout: &Layout) -> u64
    ensures { result ≡ height (frame_of layout.now) }
{
    bottom(layout).saturating_add(10)
}

/// The form of an SVG's start.
#[tactic(auto, unfolding(crate::specs::SvgFrame::opening_form))]
fn opening_form() -> &'static [u8]
    ensures { result.now ≡ opening_form }
{
    b"<svg xmlns='http://www.w3.org/2000/svg' width='A' height='B' font-family='sans-serif' font-size='11px'><title>"
}

/// The start of an SVG.
fn push_opening(out: &mut Vec<u8>, layout: &Layout) -> Result<(), AllocError>
    ensures { OnOk result (out.new.items ≡ out.old.items ++ opening (frame_of layout.now)) }
{
    push_filled(out, opening_form(), &[width(layout), height(layout)])
}

/// The head of an SVG with its title, which is this name.
fn push_head(out: &mut Vec<u8>, layout: &Layout, name: &[u8]) -> Result<(), AllocError>
    ensures { OnOk result (out.new.items ≡ out.old.items ++ head (frame_of layout.now) name.now) }
{
    push_opening(out, layout)?;
    push_escaped(out, name)?;
    out.extend_from_slice(b"</title>\n")
}

/// How many stamps are between two ticks.
fn step_of(axis: &Axis) -> u64
    ensures { result ≡ step_of axis.now }
{
    (axis.last.saturating_sub(axis.first) / 10).max(1)
}

/// A tick of the axis and its stamp.
fn push_tick(out: &mut Vec<u8>, layout: &Layout, stamp: u64) -> Result<(), AllocError>
    ensures { OnOk result (out.new.items ≡ out.old.items ++ tick (frame_of layout.now) stamp) }
{
    if stamp > layout.axis.last {
        return Ok(());
    }
    push_filled(
        out,
        b"<line class='tick' x1='A' y1='80' x2='A' y2='B'/><text x='A' y='80'>C</text>\n",
        &[across(&layout.axis, stamp), bottom(layout), stamp],
    )
}

/// The tick of this number.
fn push_tick_at(out: &mut Vec<u8>, layout: &Layout, i: u64) -> Result<(), AllocError>
    ensures { OnOk result (out.new.items ≡ out.old.items ++ tick_at (frame_of layout.now) i) }
{
    let steps = step_of(&layout.axis).saturating_mul(i);
    push_tick(out, layout, layout.axis.first.saturating_add(steps))
}

/// The ticks of the axis.
fn push_ticks(out: &mut Vec<u8>, layout: &Layout, count: u64) -> Result<(), AllocError>
    ensures { OnOk result (out.new.items ≡ out.old.items ++ ticks (frame_of layout.now) count) }
{
    for i in 0..count {
        push_tick_at(out, layout, i)?;
    }
    Ok(())
}

/// The name of a node, at its first row.
fn push_node_name(out: &mut Vec<u8>, processors: u16, node: u16) -> Result<(), AllocError>
    ensures { OnOk result (out.new.items ≡ out.old.items ++ node_name processors node) }
{
    push_filled(
        out,
        b"<text x='4' y='B' transform='translate(0 12)'>node A</text>\n",
        &[node as u64, row_down(processors, node, 0)],
    )
}

/// The names of the nodes.
fn push_node_names(out: &mut Vec<u8>, nodes: u16, processors: u16) -> Result<(), AllocError>
    ensures { OnOk result (out.new.items ≡ out.old.items ++ node_names nodes processors) }
{
    for node in 0..nodes {
        push_node_name(out, processors, node)?;
    }
    Ok(())
}

/// The name of a thread, at its lane.
fn push_lane_name(
    out: &mut Vec<u8>,
    nodes: u16,
    processors: u16,
    t: &Tid,
    lane: u32,
) -> Result<(), AllocError>
    ensures { OnOk result (out.new.items ≡ out.old.items ++ lane_name nodes processors (t.now, lane)) }
{
    push_filled(
        out,
        b"<text x='4' y='C' transform='translate(0 10)'>A.B</text>\n",
        &[
            t.home.0 as u64,
            t.seq as u64,
            lane_down(nodes, processors, lane),
        ],
    )
}

/// The names of the threads.
fn push_lane_names(
    out: &mut Vec<u8>,
    nodes: u16,
    processors: u16,
    lanes: &BTreeMap<Tid, u32>,
) -> Result<(), AllocError>
    ensures { OnOk result (out.new.items ≡ out.old.items ++ flat_map (lane_name nodes processors) lanes.now.entries) }
{
    for (t, lane) in lanes {
        push_lane_name(out, nodes, processors, t, *lane)?;
    }
    Ok(())
}

/// The names of the nodes and of the threads.
fn push_names(out: &mut Vec<u8>, layout: &Layout) -> Result<(), AllocError>
    ensures { OnOk result (out.new.items ≡ out.old.items ++ names (frame_of layout.now)) }
{
    push_node_names(out, layout.nodes, layout.processors)?;
    push_lane_names(out, layout.nodes, layout.processors, &layout.lanes)
}

/// All that stands round the shapes, before them.
pub(crate) fn push_frame(out: &mut Vec<u8>, layout: &Layout, name: &[u8]) -> Result<(), AllocError>
    ensures { OnOk result (out.new.items ≡ out.old.items ++ frame_text (frame_of layout.now) name.now) }
{
    push_head(out, layout, name)?;
    push_look(out)?;
    push_legend(out)?;
    push_ticks(out, layout, 11)?;
    push_names(out, layout)
}
