//! What holds of the tokens and faults of every text, as functions with empty bodies, which no code calls.

ghost use Rattle.cm_text.specs.Facts.{FaultsAreComputed, FaultsAreUnique, TextsAreCovered, TokensAreComputed};
ghost use Rattle.cm_text.specs.Facts.{TokensAreUnique, TokensExcludeFaults};
ghost use Rattle.cm_text.specs.Examples.{SpellingExamples};

/// Each text has tokens or a fault.
pub fn texts_are_covered()
    ensures { TextsAreCovered }
{}

/// A text has one list of tokens at most.
pub fn tokens_are_unique()
    ensures { TokensAreUnique }
{}

/// A text has one fault at most.
pub fn faults_are_unique()
    ensures { FaultsAreUnique }
{}

/// A text that has tokens has no fault.
pub fn tokens_exclude_faults()
    ensures { TokensExcludeFaults }
{}

/// A text's tokens are the ones that the definition `tokens` computes.
pub fn tokens_are_computed()
    ensures { TokensAreComputed }
{}

/// A text's fault is the one that the definition `tokens` computes.
pub fn faults_are_computed()
    ensures { FaultsAreComputed }
{}

/// The JSON of some texts, and the faults of others.
pub fn spelling_examples()
    ensures { SpellingExamples }
{}
