//! Laws of the definitions.

ghost use Rattle.std.specs.Prelude.{◌≡◌, ◌≤◌, ℕ, List, Ok, length};
ghost use Rattle.run_texts.specs.Parts.{lines_of};
ghost use Rattle.run_texts.specs.Fitting.{AreActsOf};
ghost use Rattle.run_texts.specs.Schedules.{most_acts, schedule_of};
ghost use Rattle.run_texts.specs.declared.schedule.Scheduled.{Scheduled as Act};

/// The acts of each schedule are not too many, and each is in range. A text has no more lines than bytes.
pub fn schedules_fit()
    ensures acts { (nodes processors : ℕ) (text : List ℕ) (acts : List Act) → schedule_of nodes processors text ≡ Ok acts → (length acts ≤ most_acts) × AreActsOf nodes processors acts }
    ensures lines { (text : List ℕ) → length (lines_of text) ≤ length text }
{}
