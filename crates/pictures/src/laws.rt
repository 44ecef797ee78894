//! Laws of the definitions.

ghost use Rattle.std.specs.Prelude.{◌≡◌, List, []};
ghost use Rattle.std.specs.List.{flat_map};
ghost use Rattle.slot_space.specs.declared.names.Tid.{Tid as Name};
ghost use Rattle.run_trace.specs.declared.entry.Entry.{Entry as Said};
ghost use Rattle.pictures.specs.Drawing.{shapes, said, drawn};
ghost use Rattle.pictures.specs.Telling.{run_in, run_told, mark_in, marks_told, span_in, Follow};

/// Each `ran` of a trace is exactly one bar, of its thread on its node and processor, and no other bar is drawn.
pub fn bars_are_runs()
    ensures { (trace : List Said) → flat_map run_in (shapes trace) ≡ flat_map run_told (said trace) }
{}

/// Each sign of a label is one mark, and no other mark is drawn.
pub fn marks_are_signs()
    ensures { (trace : List Said) → flat_map mark_in (shapes trace) ≡ flat_map marks_told (said trace) }
{}

/// The bars and waits that the labels draw of a thread follow one another: each begins where the last one ended.
pub fn pieces_follow()
    ensures { (trace : List Said) (t : Name) → Follow (flat_map (span_in t) (drawn [] (said trace))) }
{}
