//! Why a URL or a block is refused.

use cm_names::Memory;
use std::alloc::AllocFailed;
use thiserror::Error;

/// Why a URL has no absolute text.
#[derive(Debug, Clone, Copy, PartialEq, Eq, Error)]
pub enum UrlFault {
    /// It isn't a URL by the URL Standard, it is a fragment without a base, or its text isn't 1 to
    /// 4,096 printing bytes of ASCII without a space.
    #[error("bad URL")]
    BadUrl,
    /// It has no fragment, or an empty one, so it names no manifest.
    #[error("no fragment")]
    NoFragment,
    /// Memory ran out.
    #[error("out of memory")]
    Memory,
}

impl From<Memory> for UrlFault {
    ghost use Rattle.std.specs.Prelude.{◌≡◌};
    ghost use Rattle.cm_repo.specs.declared.fault.UrlFault.TheVariants.{Memory};

    ghost from_gives = { λ _ fault. fault ≡ Memory };

    /// For `?` after a call that lacked memory.
    fn from(_: Memory) -> UrlFault {
        UrlFault::Memory
    }
}

/// Why a repository doesn't take a block.
#[derive(Debug, Clone, Copy, PartialEq, Eq, Error)]
pub enum RepoFault {
    /// The block's URL isn't one by the URL Standard, or its text isn't 1 to 4,096 printing bytes of
    /// ASCII without a space.
    #[error("bad URL")]
    BadUrl,
    /// The block's URL has no fragment, or an empty one.
    #[error("no fragment")]
    NoFragment,
    /// The repository has a block of this URL.
    #[error("repeated URL")]
    Repeated,
    /// Memory ran out.
    #[error("out of memory")]
    Memory,
}

impl From<UrlFault> for RepoFault {
    ghost use Rattle.std.specs.Prelude.{◌≡◌};
    ghost use Rattle.cm_repo.specs.Blocks.{repo_fault};

    ghost from_gives = { λ given fault. fault ≡ repo_fault given };

    /// For `?` after a call that judged a URL: the same fault, of the block with that URL.
    fn from(fault: UrlFault) -> RepoFault {
        match fault {
            UrlFault::BadUrl => RepoFault::BadUrl,
            UrlFault::NoFragment => RepoFault::NoFragment,
            UrlFault::Memory => RepoFault::Memory,
        }
    }
}

impl<T: Drop> From<AllocFailed<T>> for RepoFault {
    ghost use Rattle.std.specs.Prelude.{◌≡◌};
    ghost use Rattle.cm_repo.specs.declared.fault.RepoFault.TheVariants.{Memory};

    ghost from_gives = { λ _ fault. fault ≡ Memory };

    /// For `?` where an allocation fails: memory ran out.
    fn from(_: AllocFailed<T>) -> RepoFault {
        RepoFault::Memory
    }
}
