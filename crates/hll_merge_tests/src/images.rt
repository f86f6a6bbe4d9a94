// SPDX-License-Identifier: Apache-2.0
//! The image of two million registers, in memory.
use crate::fixtures::{line_of, run_over};
use std::test::Fail;

/// The greatest `lg_k`, two million registers: the plan prints the same image.
#[test]
fn many_registers(rt: HostRuntime) -> Result<(), Fail> {
    let sevens = vec![in rt.alloc(); 7; 2_097_152]?;
    let mut image = Vec::from_slice(rt.alloc(), &[10, 1, 7, 21, 0, 16, 0, 10])?;
    image.extend_from_slice(&[0; 32])?;
    image.extend_from_slice(&sevens)?;
    let text = line_of(&rt, &image)?;
    let (result, written) = run_over(&rt, text.as_bytes());
    assert_eq!(rt; result, Ok(()));
    assert!(rt; written.as_slice().strip_suffix(b"\n") == text.as_bytes().strip_prefix(b"image "));
    Ok(())
}
