//! A law of workloads.
//!
//! The function does nothing and no code calls it: it promises examples, which its proof computes.

ghost use Rattle.cm_call.specs.GeneratedExamples.{DrawsExample, KidsExample};
ghost use Rattle.cm_call.specs.GeneratedExamples.{MonikerExample, UrlExample};

/// At small numbers: which instances are drawn, the children of one, its moniker and its URL.
pub fn small_workloads()
    ensures draws { DrawsExample }
    ensures kids { KidsExample }
    ensures moniker { MonikerExample }
    ensures url { UrlExample }
{}
