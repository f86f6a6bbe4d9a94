// SPDX-License-Identifier: Apache-2.0
//! Compares runs with sorted vectors: distinct and repeated coupons, full slices, runs that are merged, and elements that no
//! call wrote. Tries registers of few coupons, maxima with sources of each width, and folds.
ghost use Rattle.std.specs.Prelude.{◌≡◌, ◌↔◌, ◌-◌, ◌^◌, ◌≤◌, All, IsTrue, length};
ghost use Rattle.hll_coupons.specs.Pair.{IsPair};
ghost use Rattle.hll_kernels.specs.Groups.{IsGroup};
ghost use Rattle.hll_state.specs.CouponRun.{IsRun};

use hll_coupons::coupon::Coupon;
use hll_kernels::groups::pack_groups;
use hll_kernels::nibbles::packed_nibbles;
use hll_registers::exception_map::Exceptions;
use hll_registers::group_slice::GroupSlice;
use hll_registers::nibble_slice::NibbleSlice;
use hll_registers::register_slice::RegisterSlice;
use hll_registers::registers::{Use, two_to};
use hll_state::registers::{as_bytes, fold, max_with, promote, raise};
use hll_state::run::CouponRun;
use std::alloc::{AllocError, Global};
use std::test::Fail;

/// Which coupons are pushed: the coupons of the hashes of 0, 1, .., of seven of these again and again, or coupons that all fall
/// into one bucket of tables.
#[derive(Clone, Copy, Debug)]
enum Source {
    Distinct,
    Repeated,
    OnePath,
}

/// Returns the coupon that is pushed at an index.
fn raw_coupon(source: Source, index: u32) -> u32
    ensures { IsPair result }
{
    let coupon = match source {
        Source::Distinct => Coupon::from_value(index),
        Source::Repeated => Coupon::from_value(index % 7),
        Source::OnePath => Coupon::from_words(u64::from(index) << 15 | 77, 1),
    };
    coupon.raw()
}

/// Pushes a coupon, after a settle if all elements are in use, and returns whether there was room.
fn push_where_free(run: &mut CouponRun, coupons: &mut [[u8; 4]], raw: u32) -> bool
    requires { IsRun run.old coupons.old }
    ensures run { IsRun run.new coupons.new }
{
    if run.used == coupons.len() {
        run.settle(coupons);
    }
    if run.used == coupons.len() {
        return false;
    }
    run.push(coupons, raw);
    true
}

/// Pushes the first `count` coupons, and returns for how many of them there was room.
fn push_all(run: &mut CouponRun, coupons: &mut [[u8; 4]], source: Source, count: u32) -> u32
    requires { IsRun run.old coupons.old }
    ensures run { IsRun run.new coupons.new }
{
    let mut pushed = 0u32;
    for index in 0..count {
        let has_room = push_where_free(run, coupons, raw_coupon(source, index));
        pushed = pushed.wrapping_add(u32::from(has_room));
    }
    pushed
}

/// Returns the bytes of the distinct raw coupons, in ascending order.
fn sorted_bytes(alloc: Global, mut raw_coupons: Vec<u32>) -> Result<Vec<u8>, AllocError> {
    raw_coupons.sort_unstable();
    raw_coupons.dedup();
    let mut bytes = Vec::new(alloc);
    for raw in &raw_coupons {
        bytes.extend_from_slice(&raw.to_le_bytes())?;
    }
    Ok(bytes)
}

/// Appends the first `count` coupons.
fn append_all(raw_coupons: &mut Vec<u32>, source: Source, count: u32) -> Result<(), AllocError> {
    for index in 0..count {
        raw_coupons.push(raw_coupon(source, index))?;
    }
    Ok(())
}

/// Returns the bytes of the distinct coupons of the first `count`, in ascending order.
fn expected(alloc: Global, source: Source, count: u32) -> Result<Vec<u8>, AllocError> {
    let mut raw_coupons = Vec::new(alloc);
    append_all(&mut raw_coupons, source, count)?;
    sorted_bytes(alloc, raw_coupons)
}

/// Returns whether a run holds exactly these coupons.
fn holds(run: &mut CouponRun, coupons: &mut [[u8; 4]], bytes: &[u8]) -> bool
    requires { IsRun run.old coupons.old }
    ensures run { IsRun run.new coupons.new }
{
    run.settle(coupons);
    run.as_bytes(coupons) == bytes && run.used == bytes.len() / 4
}

/// Returns the run of the first `count` coupons in these elements, whatever they held.
fn run_of(coupons: &mut [[u8; 4]], source: Source, count: u32) -> CouponRun
    ensures run { IsRun result coupons.new }
{
    let mut run = CouponRun::new();
    push_all(&mut run, coupons, source, count);
    run
}

/// Returns whether `count` pushes into a slice of `room` elements give a run of the distinct coupons.
fn is_counted(alloc: Global, source: Source, count: u32, room: usize) -> Result<bool, AllocError> {
    let mut coupons = vec![in alloc; [0xff; 4]; room]?;
    let mut run = run_of(&mut coupons, source, count);
    let bytes = expected(alloc, source, count)?;
    Ok(holds(&mut run, &mut coupons, &bytes))
}

#[test]
fn pushes(rt: HostRuntime) -> Result<(), Fail> {
    for source in [Source::Distinct, Source::Repeated, Source::OnePath] {
        for count in [0u32, 1, 2, 31, 32, 33, 64, 65, 200, 1000] {
            for more in [0, 1, 8, 200, 2000] {
                let room = count as usize + more;
                assert!(rt;
                    is_counted(rt.alloc(), source, count, room)?,
                    "{source:?} {count} {room}"
                );
            }
        }
    }
    Ok(())
}

/// In 40 elements there is room for 39 distinct coupons again and again. Of two more the first one is added, and then there is
/// no room.
#[test]
fn full_slices(rt: HostRuntime) -> Result<(), Fail> {
    let mut coupons = vec![in rt.alloc(); [0xff; 4]; 40]?;
    let mut run = run_of(&mut coupons, Source::Distinct, 0);
    assert_eq!(rt; push_all(&mut run, &mut coupons, Source::Distinct, 39), 39);
    assert_eq!(rt; push_all(&mut run, &mut coupons, Source::Distinct, 39), 39);
    assert_eq!(rt; push_all(&mut run, &mut coupons, Source::Distinct, 41), 40);
    assert_eq!(rt; push_all(&mut run, &mut coupons, Source::Distinct, 41), 0);
    let bytes = expected(rt.alloc(), Source::Distinct, 40)?;
    assert!(rt; holds(&mut run, &mut coupons, &bytes));
    Ok(())
}

#[test]
fn no_elements(rt: HostRuntime) -> Result<(), Fail> {
    let mut run = run_of(&mut [], Source::Distinct, 3);
    run.settle(&mut []);
    assert_eq!(rt; run, CouponRun::new());
    Ok(())
}

/// What elements hold that no call wrote.
#[derive(Clone, Copy, Debug)]
enum Garbage {
    Zeros,
    Ascending,
    LastTwoSwapped,
    Descending,
    Random,
}

/// Returns the number that an element holds, at an index of 100.
fn garbage_at(garbage: Garbage, index: u32) -> u32 {
    match garbage {
        Garbage::Zeros => 0,
        Garbage::Ascending => index,
        Garbage::LastTwoSwapped if index >= 98 => 197u32.wrapping_sub(index),
        Garbage::LastTwoSwapped => index,
        Garbage::Descending => !index,
        Garbage::Random => index.wrapping_mul(0x9e37_79b9),
    }
}

/// Returns whether a run of 100 elements that no call wrote, of which the first `run` are said to ascend, holds all of them and
/// the first 40 coupons once these are pushed, in 200 elements.
fn is_sorted_out(alloc: Global, garbage: Garbage, run: usize) -> Result<bool, AllocError> {
    let mut coupons = vec![in alloc; [0xff; 4]; 200]?;
    let mut raw_coupons = Vec::new(alloc);
    for index in 0..100 {
        let raw = garbage_at(garbage, index);
        coupons[index as usize] = raw.to_le_bytes();
        raw_coupons.push(raw)?;
    }
    append_all(&mut raw_coupons, Source::Distinct, 40)?;
    let bytes = sorted_bytes(alloc, raw_coupons)?;
    let mut run = CouponRun {
        run: run.min(100),
        used: 100,
    };
    push_all(&mut run, &mut coupons, Source::Distinct, 40);
    Ok(holds(&mut run, &mut coupons, &bytes))
}

#[test]
fn untrusted_elements(rt: HostRuntime) -> Result<(), Fail> {
    for garbage in [
        Garbage::Zeros,
        Garbage::Ascending,
        Garbage::LastTwoSwapped,
        Garbage::Descending,
        Garbage::Random,
    ] {
        for run in [0, 1, 2, 50, 99, 100] {
            assert!(rt;
                is_sorted_out(rt.alloc(), garbage, run)?,
                "{garbage:?} {run}"
            );
        }
    }
    Ok(())
}

/// Extends a run of three elements that descend by two coupons.
#[test]
fn untrusted_run_is_extended(rt: HostRuntime) -> Result<(), Fail> {
    let mut coupons = vec![in rt.alloc(); [0xff; 4]; 5]?;
    coupons[..3].copy_from_slice(&[[9, 0, 0, 4], [7, 0, 0, 4], [7, 0, 0, 4]]);
    let mut run = CouponRun { run: 3, used: 3 };
    assert!(rt; push_where_free(&mut run, &mut coupons, (1 << 26) + 9));
    assert!(rt; push_where_free(&mut run, &mut coupons, (1 << 26) + 5));
    let expected = [5, 0, 0, 4, 7, 0, 0, 4, 9, 0, 0, 4];
    assert!(rt; holds(&mut run, &mut coupons, &expected));
    Ok(())
}

/// A settle that finds an ascending run and no tail writes nothing.
#[test]
fn settled_elements(rt: HostRuntime) -> Result<(), Fail> {
    let mut coupons = vec![in rt.alloc(); [0xff; 4]; 100]?;
    let mut run = run_of(&mut coupons, Source::Distinct, 60);
    run.settle(&mut coupons);
    let settled = run;
    let mut again = vec![in rt.alloc(); [0xff; 4]; 100]?;
    again.copy_from_slice(&coupons);
    run.settle(&mut again);
    assert_eq!(rt; run, settled);
    assert!(rt; again == coupons);
    Ok(())
}

/// Adds two coupons of slot 3 modulo 16, the greater one first, and one of the last slot.
#[test]
fn raised_registers(rt: HostRuntime) -> Result<(), Fail> {
    let mut elements = [[0; 4]; 4];
    assert!(rt; raise(&mut elements, 4, (7 << 26) + 35));
    assert!(rt; !raise(&mut elements, 4, (5 << 26) + 3));
    assert!(rt; raise(&mut elements, 4, (63 << 26) + 15));
    assert!(rt; !raise(&mut elements, 4, (63 << 26) + 15));
    let expected = [0, 0, 0, 7, 0, 0, 0, 0, 0, 0, 0, 0, 0, 0, 0, 63];
    assert!(rt; as_bytes(&elements, 4) == expected.as_slice());
    Ok(())
}

/// Raises 64 registers by distinct coupons one by one.
fn raise_each(registers: &mut [[u8; 4]], count: u32)
    requires { length registers.old ≡ 16 }
    ensures { length registers.new ≡ 16 }
{
    for index in 0..count {
        raise(registers, 6, raw_coupon(Source::Distinct, index));
    }
}

/// The elements have room for the registers and the coupons, and no more.
#[test]
fn promoted_runs(rt: HostRuntime) -> Result<(), Fail> {
    let mut elements = vec![in rt.alloc(); [0xff; 4]; 76]?;
    let run = run_of(&mut elements, Source::Distinct, 60);
    assert_eq!(rt; run.used, 60);
    promote(run, &mut elements, 6);
    let mut registers = vec![in rt.alloc(); [0; 4]; 16]?;
    raise_each(&mut registers, 60);
    assert!(rt; as_bytes(&elements, 6) == as_bytes(&registers, 6));
    Ok(())
}

/// How the registers of a source are stored.
#[derive(Clone, Copy, Debug)]
enum Width {
    FourBits,
    SixBits,
    EightBits,
}

/// Returns a register of 0 to 14, which follows from its slot and the seed of all registers.
fn register_at(seed: usize, slot: usize) -> u8 {
    ((slot.wrapping_mul(0x9e37_79b9).wrapping_add(seed) >> 24) % 15) as u8
}

/// Writes registers by their slots and a seed.
fn write_registers(elements: &mut [[u8; 4]], seed: usize) {
    for index in 0..elements.len() {
        let slot = 4 * index;
        elements[index] = [
            register_at(seed, slot),
            register_at(seed, slot + 1),
            register_at(seed, slot + 2),
            register_at(seed, slot + 3),
        ];
    }
}

/// Takes the maximum of registers and of the registers that fold to them, one by one.
fn raise_plainly(registers: &mut [u8], source: &[u8]) {
    let size = registers.len();
    if size == 0 {
        return;
    }
    for slot in 0..source.len() {
        registers[slot % size] = registers[slot % size].max(source[slot]);
    }
}

fn are_small(registers: &[u8]) -> bool
    ensures { IsTrue result ↔ All (λ v. v ≤ 63) registers.now }
{
    registers.iter().all(|register| *register <= 63)
}

/// Takes the maximum of registers and of a source of bytes, and returns whether the registers of the source are legal.
fn raise_by_bytes(elements: &mut [[u8; 4]], lg_k: u8, from: u8, registers: &[u8]) -> bool
    requires least { 4 ≤ lg_k }
    requires within { lg_k ≤ from }
    requires most { from ≤ 21 }
    requires size { length elements.old ≡ 2 ^ (lg_k - 2) }
{
    if registers.len() != two_to(from) || !are_small(registers) {
        return false;
    }
    max_with(elements, lg_k, &RegisterSlice::new(from, registers));
    true
}

/// Takes the maximum of registers and of a source of groups, and returns whether the registers of the source are legal.
fn raise_by_groups(elements: &mut [[u8; 4]], lg_k: u8, from: u8, groups: &[[u8; 3]]) -> bool
    requires least { 4 ≤ lg_k }
    requires within { lg_k ≤ from }
    requires most { from ≤ 21 }
    requires size { length elements.old ≡ 2 ^ (lg_k - 2) }
    requires groups { All IsGroup groups.now }
{
    if groups.len() != two_to(from - 2) {
        return false;
    }
    max_with(elements, lg_k, &GroupSlice::new(from, groups));
    true
}

/// Takes the maximum of registers and of a source of nibbles, and returns whether the registers of the source are legal.
fn raise_by_nibbles(
    alloc: Global,
    elements: &mut [[u8; 4]],
    lg_k: u8,
    from: u8,
    nibbles: &[u8],
) -> bool
    requires least { 4 ≤ lg_k }
    requires within { lg_k ≤ from }
    requires most { from ≤ 21 }
    requires size { length elements.old ≡ 2 ^ (lg_k - 2) }
{
    if nibbles.len() != two_to(from - 1) {
        return false;
    }
    let exceptions: Exceptions<Global> = None;
    match NibbleSlice::from_parts(from, 0, nibbles, exceptions, Use::Join) {
        Ok(source) => {
            max_with(elements, lg_k, &source);
            true
        }
        Err(_) => false,
    }
}

/// Takes the maximum of registers and of a source that is made from bytes, and returns whether the registers of the source are
/// legal.
fn raise_by(
    alloc: Global,
    elements: &mut [[u8; 4]],
    lg_k: u8,
    from: u8,
    width: Width,
    registers: &[u8],
) -> Result<bool, AllocError>
    requires least { 4 ≤ lg_k }
    requires within { lg_k ≤ from }
    requires most { from ≤ 21 }
    requires size { length elements.old ≡ 2 ^ (lg_k - 2) }
{
    if registers.len() % 4 != 0 || !are_small(registers) {
        return Ok(false);
    }
    Ok(match width {
        Width::EightBits => raise_by_bytes(elements, lg_k, from, registers),
        Width::SixBits => {
            let groups = pack_groups(alloc, registers)?;
            raise_by_groups(elements, lg_k, from, &groups)
        }
        Width::FourBits => {
            let nibbles = packed_nibbles(alloc, registers, 0)?;
            raise_by_nibbles(alloc, elements, lg_k, from, &nibbles)
        }
    })
}

/// Returns whether `max_with` gives the same 2^`lg_k` registers for a source of 2^`from` as the maximum that is taken one by
/// one.
fn is_joined(alloc: Global, width: Width, lg_k: u8, from: u8) -> Result<bool, AllocError> {
    if lg_k < 4 || lg_k > from || from > 21 {
        return Ok(false);
    }
    let mut source = vec![in alloc; [0; 4]; two_to(from - 2)]?;
    write_registers(&mut source, 1 << 30);
    let mut elements = vec![in alloc; [0; 4]; two_to(lg_k - 2)]?;
    write_registers(&mut elements, 0);
    let mut expected = vec![in alloc; 0; two_to(lg_k)]?;
    raise_plainly(&mut expected, elements.as_flattened());
    raise_plainly(&mut expected, source.as_flattened());
    let is_legal = raise_by(
        alloc,
        &mut elements,
        lg_k,
        from,
        width,
        source.as_flattened(),
    )?;
    Ok(is_legal && as_bytes(&elements, lg_k) == expected.as_slice())
}

/// Tries blocks of fewer than 2^14 registers, of exactly 2^14, and of more; with the source's `lg_k`, and with smaller ones.
#[test]
fn joined_registers(rt: HostRuntime) -> Result<(), Fail> {
    for width in [Width::FourBits, Width::SixBits, Width::EightBits] {
        for (lg_k, from) in [
            (4, 4),
            (4, 5),
            (4, 15),
            (10, 12),
            (13, 13),
            (14, 14),
            (14, 16),
            (15, 15),
            (15, 16),
            (16, 18),
        ] {
            assert!(rt;
                is_joined(rt.alloc(), width, lg_k, from)?,
                "{width:?} {lg_k} {from}"
            );
        }
    }
    Ok(())
}

/// Returns whether 2^`from` registers fold to 2^`to` as they do one by one.
fn is_folded(alloc: Global, from: u8, to: u8) -> Result<bool, AllocError> {
    if to < 4 || to > from || from > 21 {
        return Ok(false);
    }
    let mut elements = vec![in alloc; [0; 4]; two_to(from - 2)]?;
    write_registers(&mut elements, 7 << 20);
    let mut expected = vec![in alloc; 0; two_to(to)]?;
    raise_plainly(&mut expected, elements.as_flattened());
    fold(&mut elements, from, to);
    Ok(elements.len() >= two_to(to - 2) && as_bytes(&elements, to) == expected.as_slice())
}

#[test]
fn folded_registers(rt: HostRuntime) -> Result<(), Fail> {
    for (from, to) in [
        (4, 4),
        (5, 4),
        (12, 4),
        (14, 14),
        (15, 14),
        (16, 15),
        (18, 16),
    ] {
        assert!(rt; is_folded(rt.alloc(), from, to)?, "{from} {to}");
    }
    Ok(())
}
