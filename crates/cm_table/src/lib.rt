//! The instances of a realm tree, kept so that deciders can read them and steps can change them.
//!
//! A [`Table`] is the list of rows of a tree. It has a call for each change that an event of the
//! tree may make, and it is a `View` and a `Store` of `cm_world`. Its type says that the rows are
//! those of an orderly world, so each call keeps them so.
//!
//! The life of an instance is that of Fuchsia's component framework (fuchsia.dev: "Component
//! lifecycle"; `fuchsia.component.Realm`, `fuchsia.sys2.LifecycleController`). Incarnations, the
//! limit of instances, and that a resolve takes its memory beforehand are this project's own
//! choice.
//!
//! A row is found by its incarnation in a logarithm of the number of rows, and so are a child by its
//! name and the next child: rows stand in blocks by increasing incarnations, which are searched by
//! bisection where a row isn't at the place that is tried first, and each row has an index of its
//! children beside it. Where a declaration has many rows of one sort, an offer is found by its target,
//! its name there and its kind, a use by its path, and an expose and a capability by their names and
//! kinds, each in a logarithm of their number, since an order of them is made before the declaration is
//! taken over. A resolve takes no memory and goes through the children that it brings; a removal goes
//! down by last children, and takes a logarithm for each row, and the time to close the gap in the
//! lists. A name is found by a word that is made of it, and where another name has that word, by the order of
//! names: no choice of names can make a look-up slower than that order is.
//!
//! Each row keeps which marks it and those above it have, and the names from the root down to it. So
//! whether an instance is gone, and where it stands, is told by one look, at any depth. A mark goes to
//! each row at most once.
#![tactic(auto)]

mod block;
mod by_name;
mod change;
mod links;
mod marking;
mod marks;
mod named;
mod offers;
mod ordered;
pub mod prepared;
mod reading;
mod slot;
mod store;
pub mod table;
mod uses;
mod view;
mod wanted;

pub use prepared::Prepared;
pub use table::{Settled, Table, TableFault};
