//! What products and quotients are, said of whole numbers.

ghost use Rattle.std.specs.Prelude.{◌≡◌, ◌≢◌, ◌<◌, ◌^◌, ◌-◌, ◌*ℤ◌, ◌⊎◌, ℕ, pos};
ghost use Rattle.rv_inst.specs.declared.inst.RegOp.TheVariants as ops;
ghost use Rattle.rv_alu.specs.Alu.{low, whole, whole_w, reg_value};
ghost use Rattle.asm_laws.specs.Products.{Halves, Divides};

/// The upper half of a product and the lower half together are the product: of signed numbers, of a signed and an unsigned one, and
/// of unsigned ones.
fn product_law()
    ensures signed { (x y : ℕ) → x < 2 ^ 64 → y < 2 ^ 64
        → Halves (whole (reg_value ops.Mulh x y)) (reg_value ops.Mul x y) (whole x *ℤ whole y) }
    ensures mixed { (x y : ℕ) → x < 2 ^ 64 → y < 2 ^ 64
        → Halves (whole (reg_value ops.Mulhsu x y)) (reg_value ops.Mul x y) (whole x *ℤ pos y) }
    ensures unsigned { (x y : ℕ) → x < 2 ^ 64 → y < 2 ^ 64
        → Halves (pos (reg_value ops.Mulhu x y)) (reg_value ops.Mul x y) (pos x *ℤ pos y) }
{}

/// The quotient times the divisor, with the remainder, is the dividend, but where the least number is divided by -1: its quotient has
/// no place, and is told as the least number again.
fn quotient_law()
    ensures signed { (x y : ℕ) → x < 2 ^ 64 → y < 2 ^ 64 → y ≢ 0 → (x ≢ 2 ^ 63) ⊎ (y ≢ 2 ^ 64 - 1)
        → Divides (whole x) (whole y) (whole (reg_value ops.Div x y)) (whole (reg_value ops.Rem x y)) }
    ensures overflow { (reg_value ops.Div (2 ^ 63) (2 ^ 64 - 1) ≡ 2 ^ 63) × (reg_value ops.Rem (2 ^ 63) (2 ^ 64 - 1) ≡ 0) }
    ensures unsigned { (x y : ℕ) → y ≢ 0 → Divides (pos x) (pos y) (pos (reg_value ops.Divu x y)) (pos (reg_value ops.Remu x y)) }
{}

/// The same on the low 32 bits.
fn quotient_w_law()
    ensures signed { (x y : ℕ) → low y ≢ 0 → (low x ≢ 2 ^ 31) ⊎ (low y ≢ 2 ^ 32 - 1)
        → Divides (whole_w x) (whole_w y) (whole (reg_value ops.Divw x y)) (whole (reg_value ops.Remw x y)) }
    ensures overflow { (x y : ℕ) → low x ≡ 2 ^ 31 → low y ≡ 2 ^ 32 - 1
        → (reg_value ops.Divw x y ≡ 2 ^ 64 - 2 ^ 31) × (reg_value ops.Remw x y ≡ 0) }
    ensures unsigned { (x y : ℕ) → low y ≢ 0
        → Divides (pos (low x)) (pos (low y)) (pos (low (reg_value ops.Divuw x y))) (pos (low (reg_value ops.Remuw x y))) }
{}
