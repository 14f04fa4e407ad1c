//! What holds of every manifest and declaration, as functions with empty bodies, which no code calls.

ghost use Rattle.cm_read.specs.ReadableInside.{TextsAreReadBack, ReadableIsWellFormed};
ghost use Rattle.cm_read.specs.ReadableInside.{WhatIsReadIsReadable, WhatIsReadIsReadBack};

/// The text of a declaration that a manifest can have is read as that declaration.
#[tactic(auto, using(crate::proofs::lemmas::back::TextBack::texts_are_read_back_lem))]
pub fn texts_are_read_back()
    ensures { TextsAreReadBack }
{}

/// Law: every declaration that is read is readable, so its text is read back.
#[tactic(auto, using(crate::proofs::lemmas::reading::DeclRead::what_is_read_is_readable_lem))]
pub fn what_is_read_is_readable()
    ensures { WhatIsReadIsReadable }
{}

/// What is read is read back from the text that is written for it.
#[tactic(auto, using(crate::proofs::lemmas::reading::DeclRead::what_is_read_is_read_back_lem))]
pub fn what_is_read_is_read_back()
    ensures { WhatIsReadIsReadBack }
{}

/// A readable declaration has no use from void and no expose from the parent, and its registrations
/// and storages come from where they may.
#[tactic(auto, using(crate::proofs::lemmas::reading::DeclRead::readable_is_well_formed_lem))]
pub fn readable_is_well_formed()
    ensures { ReadableIsWellFormed }
{}
