//! The first words of the events of a journal.

ghost use Rattle.std.specs.Prelude.{◌≡◌, Some};
ghost use Rattle.cm_reply.specs.EventWords as spec;
ghost use Rattle.cm_reply.specs.EventWords.{word_of};
ghost use Rattle.cm_reply.specs.declared.event_words.EventWord.{EventWord as OneWord};

use cm_command::tokens::text_of;

/// The first word of an event in a journal.
#[derive(Clone, Copy)]
pub enum EventWord {
    /// `find`.
    Find,
    /// `begin`.
    Begin,
    /// `end`.
    End,
    /// `await`.
    Await,
    /// `create`.
    Create,
    /// `mark`.
    Mark,
    /// `pick`.
    Pick,
    /// `purge`.
    Purge,
    /// `route`.
    Route,
    /// `open`.
    Open,
    /// `open-exposed`.
    OpenExposed,
    /// `list`.
    List,
    /// `show`.
    Show,
    /// `survey`.
    Survey,
    /// `exited`.
    Exited,
    /// `tail`.
    Tail,
    /// `reap`.
    Reap,
}

/// The event whose first word that is. `None` says that there is none.
pub fn event_word(word: &[u8]) -> Option<EventWord>
    ensures { (v : OneWord) → word.now ≡ word_of v → result ≡ Some v }
{
    match text_of(word) {
        Some(text) => event_named(text),
        None => None,
    }
}

/// The kind of event whose text begins with this word, if there is one.
fn event_named(word: &str) -> Option<EventWord>
    ensures { result ≡ spec.event_named word.now }
{
    match word {
        "find" => Some(EventWord::Find),
        "begin" => Some(EventWord::Begin),
        "end" => Some(EventWord::End),
        "await" => Some(EventWord::Await),
        "create" => Some(EventWord::Create),
        "mark" => Some(EventWord::Mark),
        "pick" => Some(EventWord::Pick),
        "purge" => Some(EventWord::Purge),
        "route" => Some(EventWord::Route),
        "open" => Some(EventWord::Open),
        "open-exposed" => Some(EventWord::OpenExposed),
        "list" => Some(EventWord::List),
        "show" => Some(EventWord::Show),
        "survey" => Some(EventWord::Survey),
        "exited" => Some(EventWord::Exited),
        "tail" => Some(EventWord::Tail),
        "reap" => Some(EventWord::Reap),
        _ => None,
    }
}
