//! Laws of the expansions, by what each instruction does.

ghost use Rattle.std.specs.Prelude.{◌≡◌, ◌<◌, ◌^◌, ℕ, ℤ, List, Some, length};
ghost use Rattle.std.specs.Int.{cast_unsigned, w64};
ghost use Rattle.rv_alu.specs.Alu.{plus};
ghost use Rattle.rv_step.specs.Step.{HartState};
ghost use Rattle.asm_targets.specs.Expansions.{load_number, load_address, offset_to};
ghost use Rattle.asm_laws.specs.Loads.{Puts};

/// A number that is loaded is in its register, and nothing else has changed.
fn load_number_law()
    ensures { (image : List ℕ) (s : HartState) (rd n : ℕ) → 0 < rd → rd < length s.regs → n < 2 ^ 64
        → Puts image (load_number rd n) rd n s }
{}

/// An address that is loaded is in its register, and nothing else has changed.
fn load_address_law()
    ensures { (image : List ℕ) (s : HartState) (rd target : ℕ) → 0 < rd → rd < length s.regs → s.pc < 2 ^ 30 → target < 2 ^ 30
        → Puts image (load_address rd s.pc target) rd target s }
{}

/// An offset leads from the address to the target.
fn offset_law()
    ensures { (reach at target : ℕ) (offset : ℤ) → at < 2 ^ 64 → target < 2 ^ 64 → offset_to reach at target ≡ Some offset
        → plus at (cast_unsigned w64 offset) ≡ target }
{}
