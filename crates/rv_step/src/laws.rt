//! What the definitions of reading and writing mean, said of single bytes.

ghost use Rattle.std.specs.Prelude.{◌≡◌, ◌<◌, ◌+◌, ◌-◌, ◌&&◌, ℕ, List, length, slice_get, nat_le, nat_lt, Some, if◌then◌else◌, IsTrue, IsSome, ◌↔◌};
ghost use Rattle.rv_step.specs.Memory.{Memory, held_byte};
ghost use Rattle.rv_step.specs.Access.{byte_at, readable, writable, written};

/// Bytes are readable exactly where each one is.
fn readable_law()
    ensures { (image : List ℕ) (m : Memory) (a n : ℕ)
        → IsTrue (readable image m a n) ↔ ((k : ℕ) → k < n → IsSome (byte_at image m (a + k))) }
{}

/// Bytes are writable exactly where each one is a held slot's.
fn writable_law()
    ensures { (m : Memory) (a n : ℕ)
        → IsTrue (writable m a n) ↔ ((k : ℕ) → k < n → IsSome (held_byte m (a + k))) }
{}

/// A write changes the bytes from its address on to those that are written, and no other.
fn written_law()
    ensures { (m new : Memory) (a : ℕ) (bytes : List ℕ) → written m a bytes ≡ Some new → (x : ℕ)
        → held_byte new x ≡ (if nat_le a x && nat_lt x (a + length bytes) then slice_get bytes (x - a) else held_byte m x) }
{}
