// SPDX-License-Identifier: Apache-2.0
//! The laws of calls over images. Each law is a clause of a function that does nothing (docs/MODEL.md, "Convergence").
ghost use Rattle.hll_images.specs.Canonical.{CallsKeepCanonical};

/// What calls make of a canonical image is canonical: adding values, folding, another width, and setting or clearing the estimator
/// fields. That unions are canonical is a law of `hll_sketch`.
pub fn canonical_images()
    ensures calls_keep_canonical { CallsKeepCanonical }
{}
