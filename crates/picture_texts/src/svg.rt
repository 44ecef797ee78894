//! A picture as SVG.

ghost use Rattle.std.specs.Prelude.{◌≡◌, ◌++◌, OnOk, IfOk};
ghost use Rattle.std.specs.List.{flat_map};
ghost use Rattle.picture_texts.specs.Frames.{frame_of};
ghost use Rattle.picture_texts.specs.Svg.{svg_in, svg_text};
ghost use Rattle.picture_texts.specs.SvgShapes.{shape_text};

use crate::layout::{Layout, lay_out};
use crate::svg_frame::push_frame;
use crate::svg_shapes::push_shape;
use basics::NoMemory;
use pictures::{Shape, Window};
use std::alloc::{AllocError, Global};

/// Appends all shapes.
fn push_shapes(out: &mut Vec<u8>, layout: &Layout, shapes: &[Shape]) -> Result<(), AllocError>
    ensures { OnOk result (out.new.items ≡ out.old.items ++ flat_map (shape_text (frame_of layout.now)) shapes.now) }
{
    for shape in shapes {
        push_shape(out, layout, shape)?;
    }
    Ok(())
}

/// The SVG of these shapes, laid out so.
fn svg_in(
    alloc: Global,
    name: &[u8],
    layout: &Layout,
    shapes: &[Shape],
) -> Result<Vec<u8>, AllocError>
    ensures { IfOk result (λ text. text.items ≡ svg_in name.now (frame_of layout.now) shapes.now) }
{
    let mut out = Vec::new(alloc);
    push_frame(&mut out, layout, name)?;
    push_shapes(&mut out, layout, shapes)?;
    out.extend_from_slice(b"</svg>\n")?;
    Ok(out)
}

/// The shapes of a picture of this name, in this window, as SVG.
pub fn svg_text(
    alloc: Global,
    name: &[u8],
    window: &Window,
    shapes: &[Shape],
) -> Result<Vec<u8>, NoMemory>
    ensures { IfOk result (λ text. text.items ≡ svg_text name.now window.now shapes.now) }
{
    let layout = lay_out(alloc, window, shapes)?;
    Ok(svg_in(alloc, name, &layout, shapes)?)
}
