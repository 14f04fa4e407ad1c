//! Commands.

use cm_decl::Give;
use cm_names::{CapPath, List, Memory, Name, Text};
use cm_world::Target;

/// One call of the component manager, which a line asks for.
#[derive(Drop)]
pub enum Command {
    /// `resolve T`: fetch the instance's manifest. `ResolveInstance` of
    /// `fuchsia.sys2.LifecycleController`.
    Resolve(Target),
    /// `start T`: start its program. `StartInstance` of the same protocol.
    Start(Target),
    /// `stop T`: stop its program. `StopInstance` of the same protocol.
    Stop(Target),
    /// `shutdown T`: stop it and all below it for good.
    Shutdown(Target),
    /// `create T COLLECTION NAME URL`, and groups that offer something to the new child:
    /// `CreateChild` of `fuchsia.component.Realm`.
    Create {
        /// The instance whose child it becomes.
        parent: Target,
        /// The collection that the child is created in.
        coll: Name,
        /// The child's name.
        name: Name,
        /// Where its manifest is: 1 to 4,096 bytes from 0x21 to 0x7E.
        url: Text,
        /// What is offered to it alone.
        gives: List<Give>,
    },
    /// `destroy T`: `DestroyChild` of `fuchsia.component.Realm`.
    Destroy(Target),
    /// `list T COLLECTION`: `ListChildren` of `fuchsia.component.Realm`.
    ListChildren {
        /// The parent.
        target: Target,
        /// The collection.
        coll: Name,
    },
    /// `open T PATH`: open what the instance uses at the path.
    OpenUse {
        /// The instance.
        target: Target,
        /// The path of the use.
        path: CapPath,
    },
    /// `open-exposed T NAME`: open what it exposes by the name. `OpenExposedDir` of
    /// `fuchsia.component.Realm`.
    OpenExposed {
        /// The instance.
        target: Target,
        /// The name of the expose.
        name: Name,
    },
    /// `route T PATH`: tell where what the instance uses at the path comes from.
    RouteOf {
        /// The instance.
        target: Target,
        /// The path of the use.
        path: CapPath,
    },
    /// `doctor T`: the routes of all uses at and below the instance.
    Doctor(Target),
    /// `show T`: how the instance is.
    Show(Target),
    /// `survey T`: how it and all below it are.
    Survey(Target),
    /// `exited T`: its program has ended by itself.
    Exited(Target),
    /// `events T FROM`: what happened at and below the instance since the entry of that number.
    Events {
        /// The instance.
        target: Target,
        /// So many of the first entries are left out.
        from: u64,
    },
}

/// Why a line is no command.
#[derive(Clone, Copy)]
pub enum CommandFault {
    /// Number 70: the line is not in the grammar. So many bytes are the longest prefix of the line
    /// that some command begins with.
    BadCommand(u32),
    /// Memory ran out.
    Memory,
}

impl From<Memory> for CommandFault {
    ghost use Rattle.std.specs.Prelude.{◌≡◌};
    ghost use Rattle.cm_command.specs.declared.command.CommandFault.TheVariants.{Memory as OutOfMemory};

    ghost from_gives = { λ _ e. e ≡ OutOfMemory };

    /// For `?` after a call that lacked memory.
    fn from(_: Memory) -> CommandFault {
        CommandFault::Memory
    }
}
