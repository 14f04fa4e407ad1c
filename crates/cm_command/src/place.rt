//! Where a line stands after some of its words.

ghost use Rattle.std.specs.Prelude.{◌≡◌};
ghost use Rattle.cm_command.specs.Places as spec;

use crate::Command;
use cm_decl::{Give, Kind};
use cm_names::{CapPath, List, Name, Text};
use cm_world::{Builtin, Target};

/// The first word of a command.
#[derive(Clone, Copy)]
pub enum Verb {
    /// `resolve`
    Resolve,
    /// `start`
    Start,
    /// `stop`
    Stop,
    /// `shutdown`
    Shutdown,
    /// `create`
    Create,
    /// `destroy`
    Destroy,
    /// `list`
    List,
    /// `open`
    Open,
    /// `open-exposed`
    OpenExposed,
    /// `route`
    Route,
    /// `doctor`
    Doctor,
    /// `show`
    Show,
    /// `survey`
    Survey,
    /// `exited`
    Exited,
    /// `events`
    Events,
}

impl Verb {
    /// The first word of a command of this kind.
    pub fn word(self) -> &'static str
        ensures { result.now ≡ spec.verb_word self }
    {
        match self {
            Verb::Resolve => "resolve",
            Verb::Start => "start",
            Verb::Stop => "stop",
            Verb::Shutdown => "shutdown",
            Verb::Create => "create",
            Verb::Destroy => "destroy",
            Verb::List => "list",
            Verb::Open => "open",
            Verb::OpenExposed => "open-exposed",
            Verb::Route => "route",
            Verb::Doctor => "doctor",
            Verb::Show => "show",
            Verb::Survey => "survey",
            Verb::Exited => "exited",
            Verb::Events => "events",
        }
    }

    /// All kinds of commands.
    pub fn all() -> [Verb; 15]
        ensures { result ≡ spec.verbs }
    {
        [
            Verb::Resolve,
            Verb::Start,
            Verb::Stop,
            Verb::Shutdown,
            Verb::Create,
            Verb::Destroy,
            Verb::List,
            Verb::Open,
            Verb::OpenExposed,
            Verb::Route,
            Verb::Doctor,
            Verb::Show,
            Verb::Survey,
            Verb::Exited,
            Verb::Events,
        ]
    }
}

/// What a whole line says.
#[derive(Drop)]
pub enum ParsedLine {
    /// It asks for a command.
    Command(Command),
    /// It says that there is a builtin capability.
    Builtin(Builtin),
}

/// What is known of a command `create` once its URL was read.
#[derive(Drop)]
pub struct Creation {
    /// The parent.
    pub parent: Target,
    /// The collection.
    pub coll: Name,
    /// The child's name.
    pub name: Name,
    /// Its URL.
    pub url: Text,
    /// What is offered to it.
    pub gives: List<Give>,
}

/// Where a line stands after some of its words, and what they have said.
#[derive(Drop)]
pub enum LineState {
    /// The verb is next.
    Start,
    /// The target is next.
    Verb(Verb),
    /// The collection of `list` is next.
    Listing(Target),
    /// The path of `open` is next.
    Opening(Target),
    /// The name of `open-exposed` is next.
    OpeningExposed(Target),
    /// The path of `route` is next.
    Routing(Target),
    /// The number of `events` is next.
    Streaming(Target),
    /// The collection of `create` is next.
    Creating(Target),
    /// The child's name is next.
    CreatingIn(Target, Name),
    /// The child's URL is next.
    CreatingNamed(Target, Name, Name),
    /// A group is next, or the end.
    Groups(Creation),
    /// The kind of a group is next.
    GroupKind(Creation),
    /// The name of what a group gives is next.
    GroupName(Creation, Kind),
    /// The origin of what a group gives is next.
    GroupFrom(Creation, Kind, Name),
    /// An addition to the group is next, of those from that number on, or a group, or the end.
    Additions(Creation, Give, u32),
    /// The kind of a builtin capability is next.
    BuiltinKind,
    /// Its name is next.
    BuiltinName(Kind),
    /// The directory's path is next.
    BuiltinPath(Name),
    /// The directory's rights are next.
    BuiltinRights(Name, CapPath),
    /// The line is whole.
    Whole(ParsedLine),
}
