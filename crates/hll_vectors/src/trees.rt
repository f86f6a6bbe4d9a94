// SPDX-License-Identifier: Apache-2.0
//! Lists of steps: their outcomes, their faults, and comparisons of lists.
use hll_base::hll_type::HllType;
use hll_merge::evaluate::{compare, evaluate};
use hll_text::fault::Fault;
use hll_text::step::Step;
use std::test::Fail;

/// The image of a set, read, merged and folded.
#[test]
fn images_and_folds(rt: HostRuntime) -> Result<(), Fail> {
    let image = hex::decode(rt.alloc(), "0301070a06080009010000000500000c")?;
    let steps = [
        Step::Image(image),
        Step::Union(1, 12, HllType::Hll4),
        Step::Fold(10),
    ];
    let folded = evaluate(rt.alloc(), &steps)?;
    let written = hex::encode(rt.alloc(), folded.serialize()?)?;
    assert_eq!(rt; written.as_bytes(), b"0201070a030801000500000c".as_slice());
    Ok(())
}

/// The coupons of a set agree with the registers that they make, and don't agree with no coupons.
#[test]
fn compared(rt: HostRuntime) {
    let at_12: [Step; 10] = [
        Step::New(12, HllType::Hll8),
        Step::Coupon(16, 1),
        Step::Coupon(17, 2),
        Step::Coupon(18, 3),
        Step::Coupon(19, 4),
        Step::Coupon(20, 5),
        Step::Coupon(21, 6),
        Step::Coupon(22, 7),
        Step::Coupon(23, 8),
        Step::Union(1, 12, HllType::Hll8),
    ];
    let at_4: [Step; 10] = [
        Step::New(4, HllType::Hll8),
        Step::Coupon(16, 1),
        Step::Coupon(17, 2),
        Step::Coupon(18, 3),
        Step::Coupon(19, 4),
        Step::Coupon(20, 5),
        Step::Coupon(21, 6),
        Step::Coupon(22, 7),
        Step::Coupon(23, 8),
        Step::Union(1, 12, HllType::Hll8),
    ];
    let none: [Step; 1] = [Step::New(4, HllType::Hll8)];
    assert_eq!(rt; compare(rt.alloc(), &at_12, &at_4), Ok(true));
    assert_eq!(rt; compare(rt.alloc(), &at_12, &none), Ok(false));
}

/// The first fault of a list, with the step's number. Of two lists it is that of the left one, whatever the right one
/// is.
#[test]
fn first_faults(rt: HostRuntime) {
    let no_steps: [Step; 0] = [];
    let bare: [Step; 1] = [Step::Coupon(1, 1)];
    let above: [Step; 2] = [Step::New(10, HllType::Hll8), Step::Fold(11)];
    let one: [Step; 1] = [Step::New(10, HllType::Hll8)];
    let two: [Step; 2] = [Step::New(10, HllType::Hll8), Step::New(10, HllType::Hll8)];
    assert_eq!(rt;
        evaluate(rt.alloc(), &no_steps).err(),
        Some(Fault::Stack.at(0))
    );
    assert_eq!(rt; evaluate(rt.alloc(), &bare).err(), Some(Fault::Stack.at(1)));
    assert_eq!(rt; evaluate(rt.alloc(), &above).err(), Some(Fault::Fold.at(2)));
    assert_eq!(rt; compare(rt.alloc(), &two, &bare), Err(Fault::Stack.at(2)));
    assert_eq!(rt; compare(rt.alloc(), &two, &one), Err(Fault::Stack.at(2)));
    assert_eq!(rt; compare(rt.alloc(), &one, &bare), Err(Fault::Stack.at(1)));
}
