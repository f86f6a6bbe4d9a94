// SPDX-License-Identifier: Apache-2.0
//! The estimate state and counts that precede the registers in an image (docs/FORMAT.md, "HLL").
ghost use Rattle.std.specs.Prelude.{◌≡◌, ◌+◌, ◌≤◌, ◌<◌, ◌∷◌, [], ◌++◌, length, drop, OnOk, OnErr, IfOk, IfErr};
ghost use Rattle.std.specs.Int.{to_le_bytes, w32};
ghost use Rattle.std.specs.List.{flat_map};
ghost use Rattle.hll_base.specs.declared.error.Reason.TheVariants.{Truncated, Memory};
ghost use Rattle.hll_coupons.specs.Coupons.{mode_byte};
ghost use Rattle.hll_registers.specs.State.{IsState};
ghost use Rattle.hll_registers.specs.Payload.{state_at, num_at_cur_min, exception_count, number_bytes, flag_of};

use crate::estimate_state::EstimateState;
use hll_base::codec::SketchBytes;
use hll_base::cursor::SketchSlice;
use hll_base::error::Error;
use hll_base::family::Family;
use hll_base::hll_type::HllType;
use hll_coupons::serialization::{
    CUR_MODE_HLL, HLL_PREINTS, OUT_OF_ORDER_FLAG_MASK, SERIAL_VERSION, encode_mode_byte,
};
use std::alloc::Allocator;

/// The estimate state and two counts.
#[derive(Clone, Copy)]
pub struct Preamble {
    pub state: EstimateState,
    /// The number of registers that are 0. For 4-bit registers: the number of registers at the minimum.
    pub num_at_cur_min: u32,
    /// The number of exceptions. 0 for 6-bit and 8-bit registers.
    pub exception_count: u32,
}

/// The fields of an image's header other than the state.
#[derive(Clone, Copy)]
pub struct HllHeader {
    pub lg_config_k: u8,
    pub hll_type: HllType,
    /// The flags other than that of the state: for 4-bit registers the compact flag, otherwise 0.
    pub flags: u8,
    /// The state byte: for 4-bit registers the least register, otherwise 0.
    pub minimum: u8,
}

impl HllHeader {
    /// Returns the header of an image of 6-bit or 8-bit registers.
    pub fn plain(lg_config_k: u8, hll_type: HllType) -> HllHeader
        ensures { result ≡ record { lg_config_k = lg_config_k; hll_type = hll_type; flags = 0; minimum = 0 } }
    {
        HllHeader {
            lg_config_k,
            hll_type,
            flags: 0,
            minimum: 0,
        }
    }
}

impl Preamble {
    /// Reads the preamble, given the out-of-order flag from the header. Returns it, and the cursor after it.
    pub fn read(
        mut cursor: SketchSlice<'_>,
        ooo: bool,
    ) -> Result<(Preamble, SketchSlice<'_>), Error>
        ensures ok { IfOk result (λ r. (32 ≤ length cursor.entry) × (r.0.state ≡ state_at ooo cursor.entry) × (r.0.num_at_cur_min ≡ num_at_cur_min cursor.entry)
            × (r.0.exception_count ≡ exception_count cursor.entry) × (r.1 ≡ drop 32 cursor.entry)) }
        ensures legal { IfOk result (λ r. IsState r.0.state) }
        ensures err { IfErr result (λ e. (e ≡ Truncated) × (length cursor.entry < 32)) }
    {
        let words = [
            cursor.read_u64_le()?,
            cursor.read_u64_le()?,
            cursor.read_u64_le()?,
        ];
        let preamble = Preamble {
            state: EstimateState {
                words,
                out_of_order: ooo,
            },
            num_at_cur_min: cursor.read_u32_le()?,
            exception_count: cursor.read_u32_le()?,
        };
        Ok((preamble, cursor))
    }

    /// Returns the first 40 bytes of an image: header and preamble, in eights.
    pub fn start(self, header: HllHeader) -> [[u8; 8]; 5]
        requires { header.flags < 128 }
        ensures bytes { flat_map (λ b. b) result ≡ 10 ∷ 1 ∷ 7 ∷ header.lg_config_k ∷ 0 ∷ (header.flags + flag_of self.state) ∷ header.minimum ∷ mode_byte 2 header.hll_type ∷ number_bytes self.state self.num_at_cur_min self.exception_count }
        ensures size { length (flat_map (λ b. b) result) ≡ 40 }
    {
        let [first, second, third] = self.state.words;
        [
            self.header_bytes(header),
            first.to_le_bytes(),
            second.to_le_bytes(),
            third.to_le_bytes(),
            self.count_bytes(),
        ]
    }

    /// Returns the header of an image.
    fn header_bytes(self, header: HllHeader) -> [u8; 8]
        requires { header.flags < 128 }
        ensures { result ≡ 10 ∷ 1 ∷ 7 ∷ header.lg_config_k ∷ 0 ∷ (header.flags + flag_of self.state) ∷ header.minimum ∷ mode_byte 2 header.hll_type ∷ [] }
    {
        let flag = if self.state.out_of_order {
            OUT_OF_ORDER_FLAG_MASK
        } else {
            0
        };
        [
            HLL_PREINTS,
            SERIAL_VERSION,
            Family::HLL.id,
            header.lg_config_k,
            0,
            header.flags + flag,
            header.minimum,
            encode_mode_byte(CUR_MODE_HLL, header.hll_type as u8),
        ]
    }

    /// Returns the two counts.
    fn count_bytes(self) -> [u8; 8]
        ensures { result ≡ to_le_bytes w32 self.num_at_cur_min ++ to_le_bytes w32 self.exception_count }
    {
        let [a, b, c, d] = self.num_at_cur_min.to_le_bytes();
        let [e, f, g, h] = self.exception_count.to_le_bytes();
        [a, b, c, d, e, f, g, h]
    }

    /// Returns the first 40 bytes of an image, header and preamble, in a buffer with room for `capacity` bytes.
    ///
    /// Allocates in one request if the capacity is at least 40. Fails with `Memory` if an allocation fails.
    pub fn start_image<A: Allocator>(
        self,
        alloc: A,
        header: HllHeader,
        capacity: usize,
    ) -> Result<SketchBytes<A>, Error>
        requires { header.flags < 128 }
        ensures ok { IfOk result (λ bytes. bytes ≡ 10 ∷ 1 ∷ 7 ∷ header.lg_config_k ∷ 0 ∷ (header.flags + flag_of self.state) ∷ header.minimum ∷ mode_byte 2 header.hll_type ∷ number_bytes self.state self.num_at_cur_min self.exception_count) }
        ensures err { IfErr result (λ e. e ≡ Memory) }
    {
        let mut bytes = SketchBytes::with_capacity(alloc, capacity)?;
        bytes.write(self.start(header).as_flattened())?;
        Ok(bytes)
    }
}
