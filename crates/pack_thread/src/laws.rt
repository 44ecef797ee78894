//! What the definitions say of all threads.

ghost use Rattle.std.specs.Prelude.{◌≡◌, ℕ, List, ◌↔◌, IsOk, length};
ghost use Rattle.thread_text.specs.Fields.{Obey};
ghost use Rattle.thread_text.specs.Grammar.{thread_fields, read_text};
ghost use Rattle.pack_thread.specs.Packed.{thread_in};
ghost use Rattle.pack_thread.specs.Rules.{KeepsRules};
ghost use Rattle.pack_thread.specs.declared.moving.Moving.{Moving};
ghost use Rattle.pack_thread.specs.Moving.{text_of_moving, read_moving, IsMovingOf};
ghost use Rattle.pack_thread.specs.Threads.{PackedThread, numbers_of, text_of, IsThread, IsTyped};

/// Each thread has a text that is refused nowhere, no other thread has that text, and it is computed from the text.
pub fn one_text()
    ensures read { (t : PackedThread) → IsThread t → IsTyped t → IsOk (read_text (text_of t)) }
    ensures one { (t u : PackedThread) → IsThread t → IsTyped t → IsThread u → IsTyped u → text_of t ≡ text_of u → t ≡ u }
    ensures thread { (t : PackedThread) → IsThread t → IsTyped t → thread_in (text_of t) ≡ t }
{}

/// What a thread is split into has a head that is refused nowhere, its text is the thread's, and it is of no other thread.
pub fn one_moving()
    ensures read { (m : Moving) (t : PackedThread) → IsMovingOf m t → IsOk (read_moving m) }
    ensures text { (m : Moving) (t : PackedThread) → IsMovingOf m t → text_of_moving m ≡ text_of t }
    ensures one { (m : Moving) (t u : PackedThread) → IsMovingOf m t → IsMovingOf m u → t ≡ u }
{}

/// A thread's numbers obey the rules of their fields where the thread keeps these rules.
pub fn rules()
    ensures { (t : PackedThread) → length t.state.regs ≡ 32 → Obey thread_fields (numbers_of t) ↔ KeepsRules t }
{}
