//! Laws of scripts.
//!
//! These functions do nothing, and no code calls them: what each of them promises is a fact about
//! scripts, which its proof shows.

ghost use Rattle.cm_command.specs.Laws.{ScriptsHaveNoFault, TextsAreOneScript};

/// A text is one script at most.
pub fn texts_are_one_script()
    ensures { TextsAreOneScript }
{}

/// A script has no fault: no text is a script and has a fault as well.
pub fn scripts_have_no_fault()
    ensures { ScriptsHaveNoFault }
{}
