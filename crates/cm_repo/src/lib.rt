//! Manifests by URL, and absolute URLs.
//!
//! A component's URL names its manifest by a fragment, as `fuchsia-pkg://t/a#meta/root.cm` does.
//! A URL that is a fragment alone, as `#meta/logger.cm`, lies in the package of the component that
//! names it, as Fuchsia's reference on component URLs (fuchsia.dev) says.
//!
//! [`absolute`] makes a URL absolute, and [`Repository`] keeps the bytes of manifests by the text
//! of their URLs.
#![tactic(auto)]

mod alike;
mod fault;
mod repository;
mod urls;

pub use fault::{RepoFault, UrlFault};
pub use repository::{Repository, ResolvedUrl};
pub use urls::absolute;
