// SPDX-License-Identifier: Apache-2.0
//! The inverse of an odd number modulo a power of two.
ghost use Rattle.std.specs.Prelude.{◌≡◌, ◌+◌, ◌-◌, ◌*◌, ◌%◌, ◌^◌, ◌<◌, ◌≤◌};
ghost use Rattle.hll_coupons.specs.Cycle.{IsInverse};

/// Does one step of Newton's method, which doubles the number of correct low bits.
fn step(odd: u32, inverse: u32) -> u32
    ensures { result ≡ inverse * ((2 + (2 ^ 32 - odd * inverse % 2 ^ 32)) % 2 ^ 32) % 2 ^ 32 }
{
    inverse.wrapping_mul(2u32.wrapping_sub(odd.wrapping_mul(inverse)))
}

/// Returns the inverse of an odd number modulo 2^`lg_size`.
pub(crate) fn inverse_of(lg_size: usize, odd: u32) -> usize
    requires small { lg_size ≤ 26 }
    requires odd { odd % 2 ≡ 1 }
    ensures inverse { IsInverse lg_size odd result }
    ensures small { result < 2 ^ 32 }
{
    let mut inverse = 1;
    for _ in 0..5u32 {
        inverse = step(odd, inverse);
    }
    inverse as usize
}
