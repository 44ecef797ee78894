//! What multiplications and divisions compute.

ghost use Rattle.std.specs.Prelude.{◌≡◌, ◌<◌, ◌^◌, ◌*ℤ◌, pos, unsigned_abs};
ghost use Rattle.std.specs.Int.{int_div_euclid};
ghost use Rattle.rv_inst.specs.declared.inst.RegOp.TheVariants as ops;
ghost use Rattle.rv_alu.specs.Alu.{reg_value};

use crate::alu::{extended, low};

fn product(x: i64, y: i64) -> i128
    ensures value { result ≡ x *ℤ y }
    ensures bound { unsigned_abs result < 2 ^ 127 }
{
    x as i128 * y as i128
}

fn mixed_product(x: i64, y: u64) -> i128
    ensures value { result ≡ x *ℤ pos y }
    ensures bound { unsigned_abs result < 2 ^ 127 }
{
    x as i128 * y as i128
}

/// The upper half of a product.
#[tactic(auto, using(crate::proofs::Halves::shifted))]
fn high(product: i128) -> i64
    requires { unsigned_abs product < 2 ^ 127 }
    ensures { result ≡ int_div_euclid product (pos (2 ^ 64)) }
{
    (product >> 64) as i64
}

pub(crate) fn mulh(x: u64, y: u64) -> u64
    ensures { result ≡ reg_value ops.Mulh x y }
{
    high(product(x.cast_signed(), y.cast_signed())).cast_unsigned()
}

pub(crate) fn mulhsu(x: u64, y: u64) -> u64
    ensures { result ≡ reg_value ops.Mulhsu x y }
{
    high(mixed_product(x.cast_signed(), y)).cast_unsigned()
}

pub(crate) fn mulhu(x: u64, y: u64) -> u64
    ensures { result ≡ reg_value ops.Mulhu x y }
{
    let product = x as u128 * y as u128;
    (product >> 64) as u64
}

pub(crate) fn div(x: u64, y: u64) -> u64
    ensures { result ≡ reg_value ops.Div x y }
{
    if y == 0 {
        return u64::MAX;
    }
    x.cast_signed()
        .wrapping_div(y.cast_signed())
        .cast_unsigned()
}

pub(crate) fn divu(x: u64, y: u64) -> u64
    ensures { result ≡ reg_value ops.Divu x y }
{
    if y == 0 { u64::MAX } else { x / y }
}

pub(crate) fn rem(x: u64, y: u64) -> u64
    ensures { result ≡ reg_value ops.Rem x y }
{
    if y == 0 {
        return x;
    }
    x.cast_signed()
        .wrapping_rem(y.cast_signed())
        .cast_unsigned()
}

pub(crate) fn remu(x: u64, y: u64) -> u64
    ensures { result ≡ reg_value ops.Remu x y }
{
    if y == 0 { x } else { x % y }
}

pub(crate) fn mulw(x: u64, y: u64) -> u64
    ensures { result ≡ reg_value ops.Mulw x y }
{
    extended(low(x).wrapping_mul(low(y)))
}

pub(crate) fn divw(x: u64, y: u64) -> u64
    ensures { result ≡ reg_value ops.Divw x y }
{
    if low(y) == 0 {
        return u64::MAX;
    }
    extended(
        low(x)
            .cast_signed()
            .wrapping_div(low(y).cast_signed())
            .cast_unsigned(),
    )
}

pub(crate) fn divuw(x: u64, y: u64) -> u64
    ensures { result ≡ reg_value ops.Divuw x y }
{
    if low(y) == 0 {
        return u64::MAX;
    }
    extended(low(x) / low(y))
}

pub(crate) fn remw(x: u64, y: u64) -> u64
    ensures { result ≡ reg_value ops.Remw x y }
{
    if low(y) == 0 {
        return extended(low(x));
    }
    extended(
        low(x)
            .cast_signed()
            .wrapping_rem(low(y).cast_signed())
            .cast_unsigned(),
    )
}

pub(crate) fn remuw(x: u64, y: u64) -> u64
    ensures { result ≡ reg_value ops.Remuw x y }
{
    if low(y) == 0 {
        return extended(low(x));
    }
    extended(low(x) % low(y))
}
