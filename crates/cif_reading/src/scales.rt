//! Numbers multiplied by a scale.
ghost use Rattle.std.specs.Prelude.{◌≡◌, ◌≤◌, ◌≤ℤ◌, ◌*ℤ◌, pos, unsigned_abs};
ghost use Rattle.std.specs.Ordering.{int_eq};
ghost use Rattle.cif_reading.specs.declared.limits.TheConstants.{MOST_FACTOR, MOST_SCALED};
ghost use Rattle.cif_reading.specs.Scales.{is_whole, scaled};

/// All numbers of a symbol are multiplied by `up` and divided by `down`.
#[derive(Clone, Copy, Debug)]
pub struct Scale {
    pub up: i64,
    pub down: i64,
}

fn is_zero(z: i64) -> bool
    ensures { result ≡ int_eq z (pos 0) }
{
    z == 0
}

fn product(scale: Scale, z: i64) -> i64
    requires up { unsigned_abs scale.up ≤ MOST_FACTOR }
    requires near { unsigned_abs z ≤ MOST_SCALED }
    ensures { result ≡ z *ℤ scale.up }
{
    z * scale.up
}

/// Whether the number is whole when it is scaled.
pub fn is_whole(scale: Scale, z: i64) -> bool
    requires up { unsigned_abs scale.up ≤ MOST_FACTOR }
    requires down { pos 1 ≤ℤ scale.down }
    requires near { unsigned_abs z ≤ MOST_SCALED }
    ensures { result ≡ is_whole scale z }
{
    is_zero(product(scale, z).rem_euclid(scale.down))
}

/// What the number is when it is scaled, rounded down.
pub fn scaled(scale: Scale, z: i64) -> i64
    requires up { unsigned_abs scale.up ≤ MOST_FACTOR }
    requires down { pos 1 ≤ℤ scale.down }
    requires near { unsigned_abs z ≤ MOST_SCALED }
    ensures { result ≡ scaled scale z }
{
    product(scale, z).div_euclid(scale.down)
}
