// SPDX-License-Identifier: Apache-2.0
//! Bytes of images: what is written, and what is read.
use hll_base::codec::SketchBytes;
use hll_base::cursor::SketchSlice;
use hll_base::error::Error;
use std::alloc::Allocator;
use std::test::Fail;

/// Writes seven fields, 40 bytes in all.
fn write_fields<A: Allocator>(bytes: &mut SketchBytes<A>) -> Result<(), Error> {
    bytes.write_u8(1)?;
    bytes.write_u32_le(0x0504_0302)?;
    bytes.write_u64_le(0x0d0c_0b0a_0908_0706)?;
    bytes.write(&[14, 15, 16])?;
    bytes.write_u64_le(0x1817_1615_1413_1211)?;
    bytes.write_u64_le(0x201f_1e1d_1c1b_1a19)?;
    bytes.write_u64_le(0x2827_2625_2423_2221)
}

#[test]
fn fields_follow_one_another(rt: HostRuntime) -> Result<(), Fail> {
    let mut bytes = SketchBytes::with_capacity(rt.alloc(), 1)?;
    write_fields(&mut bytes)?;
    let written = bytes.into_bytes();
    assert_eq!(rt; written.len(), 40);
    for (bucket, byte) in written.iter().enumerate() {
        assert_eq!(rt; usize::from(*byte), bucket + 1);
    }
    Ok(())
}

/// A byte and three more are read; then too few are left for three.
#[test]
fn reads(rt: HostRuntime) -> Result<(), Fail> {
    let mut cursor = SketchSlice::new(&[1, 2, 3, 4, 5, 6]);
    assert_eq!(rt; cursor.read_u8()?, 1);
    let mut buffer = [0; 3];
    cursor.read_exact(&mut buffer)?;
    assert_eq!(rt; buffer, [2, 3, 4]);
    assert!(rt; cursor.read_exact(&mut buffer).is_err());
    assert_eq!(rt; buffer, [2, 3, 4]);
    assert_eq!(rt; cursor.remaining(), [5, 6].as_slice());
    Ok(())
}
