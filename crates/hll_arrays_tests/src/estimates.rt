// SPDX-License-Identifier: Apache-2.0
//! Estimates of registers, and estimates as binary64 numbers. `tests/estimates.py` makes the test vectors, in decimal
//! arithmetic with a hundred digits.
ghost use Rattle.std.specs.Prelude.{◌≡◌, ◌↔◌, ◌^◌, ◌≤◌, length, All, IsTrue, IfOk};

use hll_estimate::division::divide;
use hll_estimate::double::nearest_double;
use hll_estimate::estimate::{Estimate, estimate_of_registers};
use hll_registers::registers::two_to;
use std::alloc::{AllocError, Allocator};
use std::test::Fail;

/// `lg_k`, the number of registers that are 0, the value of the other registers, the value of the last register, and
/// the estimate in units of 2^-32, rounded down.
const FILLED: [(u8, usize, u8, u8, u128); 22] = [
    (4, 15, 1, 1, 4295972874),
    (4, 15, 1, 63, 4308006238),
    (4, 8, 1, 2, 42350732378),
    (4, 1, 1, 1, 87124574981),
    (4, 1, 63, 63, 701839068761),
    (4, 0, 1, 1, 92872363746),
    (4, 0, 30, 31, 51468872902442344305),
    (4, 0, 63, 62, 403104170718652028641345158283),
    (12, 4095, 1, 1, 4294967296),
    (12, 4094, 2, 1, 8590929168),
    (12, 2048, 1, 5, 11123723285449),
    (12, 1, 10, 20, 10396525258118334),
    (12, 0, 1, 1, 25373469294450),
    (12, 0, 40, 3, 415718908533918868),
    (12, 0, 63, 1, 103929730230070670),
    (21, 2097151, 1, 1, 4294967296),
    (21, 2097151, 63, 63, 4294967296),
    (21, 1048576, 1, 2, 5695670562818578),
    (21, 1, 5, 6, 207911136317326891),
    (21, 0, 1, 1, 12994635005082782),
    (21, 0, 20, 63, 6812934446205142095693),
    (21, 0, 63, 62, 59927147992016427949274477214063863),
];

/// `lg_k`, what is added to scattered registers, and the estimate in units of 2^-32, rounded down.
const SCATTERED: [(u8, u8, u128); 20] = [
    (4, 0, 54298179163),
    (4, 1, 153389194313),
    (4, 20, 80420113908133335),
    (4, 31, 164700393283857070957),
    (7, 0, 382194106054),
    (7, 1, 1193693077748),
    (7, 20, 625838956346583854),
    (7, 31, 1281718182597803733682),
    (12, 0, 12000068995436),
    (12, 1, 38064752958010),
    (12, 20, 19956893198849410123),
    (12, 31, 40871717271243591933392),
    (16, 0, 192016988405401),
    (16, 1, 609123897314272),
    (16, 20, 319356349875105102884),
    (16, 31, 654041804544215250707286),
    (21, 0, 6144538837784567),
    (21, 1, 19491957014382170),
    (21, 20, 10219399159156399498004),
    (21, 31, 20929329477952306171914163),
];

/// Estimates in units of 2^-32, and the bits of their binary64 numbers. Some are halfway between two numbers.
const DOUBLES: [(u128, u64); 26] = [
    (0, 0x0000000000000000),
    (1, 0x3df0000000000000),
    (3, 0x3e08000000000000),
    (4294967296, 0x3ff0000000000000),
    (4503599627370497, 0x4130000000000001),
    (9007199254740991, 0x413fffffffffffff),
    (9007199254740992, 0x4140000000000000),
    (9007199254740993, 0x4140000000000000),
    (9007199254740994, 0x4140000000000001),
    (9007199254740995, 0x4140000000000002),
    (18014398509481983, 0x4150000000000000),
    (18014398509481985, 0x4150000000000000),
    (18014398509481986, 0x4150000000000000),
    (18014398509481987, 0x4150000000000001),
    (18014398509481990, 0x4150000000000002),
    (36028797018963966, 0x4160000000000000),
    (36028797018963965, 0x415fffffffffffff),
    (19342813113834068942782464, 0x4330000000000000),
    (19342813113834073237749760, 0x4330000000000002),
    (19342813113834068942782463, 0x4330000000000000),
    (19342813113834068942782465, 0x4330000000000001),
    (332306998946228968225951765070086143, 0x4550000000000000),
    (170141183460469231731687303715884105728, 0x45e0000000000000),
    (340282366920938444573908675953187356672, 0x45f0000000000000),
    (340282366920938444573908675953187356671, 0x45efffffffffffff),
    (340282366920938463463374607431768211455, 0x45f0000000000000),
];

fn are_small(bytes: &[u8]) -> bool
    ensures { IsTrue result ↔ All (λ v. v ≤ 63) bytes.now }
{
    bytes.iter().all(|value| *value <= 63)
}

/// Returns the estimate, if there are 2^`lg_k` registers.
fn estimated(lg_k: u8, registers: &[u8]) -> Option<Estimate> {
    if lg_k < 4 || lg_k > 21 || registers.len() != two_to(lg_k) || !are_small(registers) {
        return None;
    }
    Some(estimate_of_registers(lg_k, registers))
}

/// Returns whether an estimate is this number, up to one part in 2^40 and one unit.
fn is_near(estimate: Option<Estimate>, exact: u128) -> bool {
    match estimate {
        Some(Estimate::Finite(units)) => units.abs_diff(exact) <= (exact >> 40) + 1,
        _ => false,
    }
}

/// Returns registers: the first ones 0, the others `value`, and the last one `last`.
fn filled<A: Allocator>(
    alloc: A,
    lg_k: u8,
    zeros: usize,
    value: u8,
    last: u8,
) -> Result<Vec<u8, A>, AllocError>
    requires { lg_k ≤ 21 }
{
    let mut registers = vec![in alloc; value; two_to(lg_k)]?;
    for register in registers.iter_mut().take(zeros) {
        *register = 0;
    }
    if let Some(register) = registers.last_mut() {
        *register = last;
    }
    Ok(registers)
}

/// Returns registers as after a few values for each, plus `least`.
fn scattered<A: Allocator>(alloc: A, lg_k: u8, least: u8) -> Result<Vec<u8, A>, AllocError>
    requires { lg_k ≤ 21 }
{
    let mut registers = Vec::new(alloc);
    for index in 0..1u32 << lg_k {
        let zeros = index.wrapping_mul(0x9e37_79b9).leading_zeros() as u8;
        registers.push(zeros.wrapping_add(least))?;
    }
    Ok(registers)
}

#[test]
fn filled_registers(rt: HostRuntime) -> Result<(), Fail> {
    for (lg_k, zeros, value, last, exact) in FILLED {
        let registers = filled(rt.alloc(), lg_k.min(21), zeros, value, last)?;
        assert!(rt; is_near(estimated(lg_k, &registers), exact));
    }
    Ok(())
}

#[test]
fn scattered_registers(rt: HostRuntime) -> Result<(), Fail> {
    for (lg_k, least, exact) in SCATTERED {
        let registers = scattered(rt.alloc(), lg_k.min(21), least)?;
        assert!(rt; is_near(estimated(lg_k, &registers), exact));
    }
    Ok(())
}

/// All registers 0, and all 63.
#[test]
fn ends(rt: HostRuntime) -> Result<(), Fail> {
    for lg_k in [4u8, 12, 21] {
        let none = filled(rt.alloc(), lg_k, 0, 0, 0)?;
        assert_eq!(rt; estimated(lg_k, &none), Some(Estimate::Finite(0)));
        let greatest = filled(rt.alloc(), lg_k, 0, 63, 63)?;
        assert_eq!(rt; estimated(lg_k, &greatest), Some(Estimate::Infinite));
    }
    Ok(())
}

#[test]
fn doubles(rt: HostRuntime) {
    for (units, bits) in DOUBLES {
        assert_eq!(rt; nearest_double(Estimate::Finite(units)), bits);
    }
    assert_eq!(rt; nearest_double(Estimate::Infinite), 0x7ff0_0000_0000_0000);
}

/// Numbers at the edges of digits, and the least and the greatest numbers.
const DIVIDED: [u128; 16] = [
    0,
    1,
    2,
    3,
    0x7fff_ffff,
    0x8000_0000,
    0xffff_ffff,
    0x1_0000_0000,
    0xffff_ffff_ffff_ffff,
    0x1_0000_0000_0000_0000,
    0x1_0000_0000_0000_0001,
    20304127651739994,
    0x8000_0000_0000_0000_0000_0001,
    0x8000_0000_0000_0000_0000_0000_0000_0000,
    0xffff_ffff_ffff_ffff_ffff_ffff_ffff_fffe,
    0xffff_ffff_ffff_ffff_ffff_ffff_ffff_ffff,
];

#[test]
fn divisions(rt: HostRuntime) {
    for dividend in DIVIDED {
        for divisor in DIVIDED {
            if divisor != 0 {
                let expected = (dividend / divisor, dividend % divisor);
                assert_eq!(rt; divide(dividend, divisor), expected);
            }
        }
    }
}
