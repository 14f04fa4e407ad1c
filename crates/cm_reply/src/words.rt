//! Words with numbers after them, as answers and journals have them.

ghost use Rattle.std.specs.Prelude.{◌++◌, codes, decimal, OnOk};
ghost use Rattle.cm_reply.specs.ListsInside.{GainsText};
ghost use Rattle.cm_reply.specs.States.{incarnation_text};

use crate::lists::push_value;
use cm_names::Memory;

/// Puts `WORDS NUMBER` at the end; a space before the words is part of them. `Err` where memory runs out.
pub fn push_number(text: &mut String, words: &str, number: u64) -> Result<(), Memory>
    ensures { OnOk result (GainsText text.old text.new (words.now ++ (codes " " ++ decimal number))) }
{
    push_value(text, format_args!("{words} {number}"))
}

/// Puts `WORDS FIRST SECOND` at the end, for an event or a reply in a journal. `Err` where memory runs out.
pub fn push_numbers(text: &mut String, words: &str, first: u64, second: u64) -> Result<(), Memory>
    ensures { OnOk result (GainsText text.old text.new (words.now ++ (codes " " ++ (decimal first
        ++ (codes " " ++ decimal second))))) }
{
    push_value(text, format_args!("{words} {first} {second}"))
}

/// Puts `WORDS NUMBER NOTE` at the end, for an event in a journal that names an instance and a path or a name
/// there. `Err` where memory runs out.
pub fn push_noted(text: &mut String, words: &str, number: u64, note: &str) -> Result<(), Memory>
    ensures { OnOk result (GainsText text.old text.new (words.now ++ (codes " " ++ (decimal number
        ++ (codes " " ++ note.now))))) }
{
    push_value(text, format_args!("{words} {number} {note}"))
}

/// Puts ` incarnation INC` at the end: after an instance's moniker or name, in answers, routes and lists.
/// `Err` where memory runs out.
pub fn push_incarnation(text: &mut String, inc: u64) -> Result<(), Memory>
    ensures { OnOk result (GainsText text.old text.new (incarnation_text inc)) }
{
    push_value(text, format_args!(" incarnation {inc}"))
}
