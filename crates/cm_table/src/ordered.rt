//! Declarations, and rows that have one, with the orders of their rows.

ghost use Rattle.std.specs.Prelude.{◌≡◌, IfOk, None, option_and_then};
ghost use Rattle.cm_world.specs.End.{end_row, set_decl, set_pending};
ghost use Rattle.cm_world.specs.Offering.{offer_index};
ghost use Rattle.cm_world.specs.RowsInside.{use_index, expose_index, capability_index};
ghost use Rattle.cm_table.specs.Change.{change_row};
ghost use Rattle.cm_table.specs.Numbering.{placed};
ghost use Rattle.cm_table.specs.Uses.{AreOrders, AreKeptOrders};

use crate::change::{Change, put};
use crate::named::{find_named, order_of_named, search_named};
use crate::offers::{find_offer, order_of, search_offer};
use crate::uses::{find_use, order_of_uses, search_use};
use cm_decl::{Decl, Kind};
use cm_names::{CapPath, ChildName, Memory, Name, Shared, Text};
use cm_world::{Outcome, Row};
use std::alloc::Global;
use std::marker::Model;

/// The orders in which the rows of a declaration are found.
pub struct Orders {
    /// The places of its offers, by increasing targets, names there and kinds.
    offers: Vec<usize>,
    /// The places of its uses, by increasing paths.
    uses: Vec<usize>,
    /// The places of its exposes, by increasing target names and kinds.
    exposes: Vec<usize>,
    /// The places of its capabilities, by increasing names and kinds.
    capabilities: Vec<usize>,
}

impl Drop for Orders {
    /// Frees the four lists of places.
    fn drop(self) {
        let Orders {
            offers: _,
            uses: _,
            exposes: _,
            capabilities: _,
        } = self;
    }
}

/// So many rows of one sort are gone through, and more are found by their order.
const FEW: usize = 8;

/// The orders of the rows of a declaration, if there are many of one sort. `Err` where memory runs
/// out.
fn orders_of(alloc: Global, decl: &Decl) -> Result<Option<Shared<Orders>>, Memory>
    ensures { IfOk result (AreKeptOrders decl.now) }
{
    if has_few(decl) {
        return Ok(None);
    }
    let orders = all_orders(alloc, decl)?;
    let orders = Shared::new(alloc, orders)?;
    Ok(Some(orders))
}

/// Whether a declaration has few rows of each sort.
fn has_few(decl: &Decl) -> bool {
    decl.offers.len() <= FEW
        && decl.uses.len() <= FEW
        && decl.exposes.len() <= FEW
        && decl.capabilities.len() <= FEW
}

/// The orders of the rows of a declaration. `Err` where memory runs out.
fn all_orders(alloc: Global, decl: &Decl) -> Result<Orders, Memory>
    ensures { IfOk result (AreOrders decl.now) }
{
    let offers = order_of(alloc, decl.offers.as_slice())?;
    let uses = order_of_uses(alloc, decl.uses.as_slice())?;
    let exposes = order_of_named(alloc, decl.exposes.as_slice())?;
    let capabilities = order_of_named(alloc, decl.capabilities.as_slice())?;
    Ok(Orders {
        offers,
        uses,
        exposes,
        capabilities,
    })
}

/// The place of the first offer of that kind and name to the child or to its collection.
fn offer_in(
    decl: &Decl,
    orders: &Option<Shared<Orders>>,
    child: &ChildName,
    kind: Kind,
    name: &Name,
) -> Option<usize>
    requires { AreKeptOrders decl.now orders.now }
    ensures { result ≡ offer_index decl.now kind name.now child.now }
{
    let offers = decl.offers.as_slice();
    match orders {
        None => search_offer(offers, child, kind, name),
        Some(orders) => find_offer(offers, orders.get().offers.as_slice(), child, kind, name),
    }
}

/// The place of the first use of that path.
fn use_in(decl: &Decl, orders: &Option<Shared<Orders>>, path: &CapPath) -> Option<usize>
    requires { AreKeptOrders decl.now orders.now }
    ensures { result ≡ use_index decl.now path.now }
{
    let uses = decl.uses.as_slice();
    match orders {
        None => search_use(uses, path),
        Some(orders) => find_use(uses, orders.get().uses.as_slice(), path),
    }
}

/// The place of the first expose of that kind and target name.
fn expose_in(decl: &Decl, orders: &Option<Shared<Orders>>, kind: Kind, name: &Name) -> Option<usize>
    requires { AreKeptOrders decl.now orders.now }
    ensures { result ≡ expose_index decl.now kind name.now }
{
    let exposes = decl.exposes.as_slice();
    match orders {
        None => search_named(exposes, kind, name),
        Some(orders) => find_named(exposes, orders.get().exposes.as_slice(), kind, name),
    }
}

/// The place of the first capability of that kind and name.
fn capability_in(
    decl: &Decl,
    orders: &Option<Shared<Orders>>,
    kind: Kind,
    name: &Name,
) -> Option<usize>
    requires { AreKeptOrders decl.now orders.now }
    ensures { result ≡ capability_index decl.now kind name.now }
{
    let capabilities = decl.capabilities.as_slice();
    match orders {
        None => search_named(capabilities, kind, name),
        Some(orders) => find_named(
            capabilities,
            orders.get().capabilities.as_slice(),
            kind,
            name,
        ),
    }
}

/// A declaration with the orders in which its rows are found. Contracts see it as the declaration.
pub struct OrderedDecl {
    decl: Shared<Decl>,
    orders: Option<Shared<Orders>>,
}

impl Drop for OrderedDecl {
    /// Gives back its shares in the declaration and in the orders.
    fn drop(self) {
        let OrderedDecl { decl: _, orders: _ } = self;
    }
}

impl Model for OrderedDecl {
    ghost use Rattle.cm_decl.specs.declared.decl.Decl.{Decl as Declared};

    ghost Value = { Declared };

    ghost use Rattle.cm_table.specs.Uses.{AreKeptOrders};

    ghost view = { λ a. a.decl };

    ghost invariant = { λ a. AreKeptOrders a.decl a.orders };
}

impl OrderedDecl {
    /// The declaration with the orders of its rows. `Err` where memory runs out.
    pub fn make(alloc: Global, decl: Decl) -> Result<OrderedDecl, Memory>
        ensures { IfOk result (λ made. made ≡ decl) }
    {
        let decl = Shared::new(alloc, decl)?;
        OrderedDecl::of(alloc, decl)
    }

    /// Sorts the places of the rows of a declaration that is shared. `Err` where memory runs out.
    pub fn of(alloc: Global, decl: Shared<Decl>) -> Result<OrderedDecl, Memory>
        ensures { IfOk result (λ made. made ≡ decl) }
    {
        let orders = orders_of(alloc, decl.get())?;
        Ok(OrderedDecl { decl, orders })
    }

    /// The declaration.
    pub fn get(&self) -> &Decl
        ensures { result.now ≡ self.now }
    {
        self.decl.get()
    }

    /// The declaration, and the orders of its rows.
    fn into_parts(self) -> (Shared<Decl>, Option<Shared<Orders>>)
        ensures decl { result.0 ≡ self }
        ensures orders { AreKeptOrders self result.1 }
    {
        let OrderedDecl { decl, orders } = self;
        (decl, orders)
    }

    /// A share in the declaration. `Err` where memory runs out.
    pub fn share(&self) -> Result<Shared<Decl>, Memory>
        ensures { IfOk result (λ shared. shared ≡ self.now) }
    {
        Ok(self.decl.clone()?)
    }
}

/// A row with the orders in which the rows of its declaration are found. Contracts
/// see it as the row.
pub struct OrderedRow {
    row: Row,
    orders: Option<Shared<Orders>>,
}

impl Drop for OrderedRow {
    /// Frees the row, and gives back its share in the orders.
    fn drop(self) {
        let OrderedRow { row: _, orders: _ } = self;
    }
}

impl Model for OrderedRow {
    ghost use Rattle.cm_world.specs.declared.row.Row.{Row as Kept};

    ghost Value = { Kept };

    ghost use Rattle.cm_table.specs.Uses.{AreOrdersOf};

    ghost view = { λ a. a.row };

    ghost invariant = { λ a. AreOrdersOf a.row a.orders };
}

impl OrderedRow {
    /// A row that has no declaration.
    pub fn new(row: Row) -> OrderedRow
        requires { row.decl ≡ None }
        ensures { result ≡ row }
    {
        OrderedRow { row, orders: None }
    }

    /// The row.
    pub fn get(&self) -> &Row
        ensures { result.now ≡ self.now }
    {
        &self.row
    }

    /// The place of the first offer of that kind and name to the child or to its collection.
    pub fn offer(&self, child: &ChildName, kind: Kind, name: &Name) -> Option<usize>
        ensures { result ≡ option_and_then (λ d. offer_index d kind name.now child.now) self.now.decl }
    {
        match &self.row.decl {
            None => None,
            Some(decl) => offer_in(decl.get(), &self.orders, child, kind, name),
        }
    }

    /// The place of the first use of that path.
    pub fn usage(&self, path: &CapPath) -> Option<usize>
        ensures { result ≡ option_and_then (λ d. use_index d path.now) self.now.decl }
    {
        match &self.row.decl {
            None => None,
            Some(decl) => use_in(decl.get(), &self.orders, path),
        }
    }

    /// The place of the first expose of that kind and target name.
    pub fn expose(&self, kind: Kind, name: &Name) -> Option<usize>
        ensures { result ≡ option_and_then (λ d. expose_index d kind name.now) self.now.decl }
    {
        match &self.row.decl {
            None => None,
            Some(decl) => expose_in(decl.get(), &self.orders, kind, name),
        }
    }

    /// The place of the first capability of that kind and name.
    pub fn capability(&self, kind: Kind, name: &Name) -> Option<usize>
        ensures { result ≡ option_and_then (λ d. capability_index d kind name.now) self.now.decl }
    {
        match &self.row.decl {
            None => None,
            Some(decl) => capability_in(decl.get(), &self.orders, kind, name),
        }
    }

    /// Puts the row under its parent.
    pub fn place(&mut self, parent: u64, inc: u64)
        ensures { self.new ≡ placed parent inc self.old }
    {
        self.row.inc = inc;
        self.row.parent = Some(parent);
    }

    /// Makes a change that the realm decided on this one row.
    #[inline(always)]
    pub fn apply(&mut self, change: Change)
        ensures { self.new ≡ change_row change self.old }
    {
        match change {
            Change::On(on) => self.row.on = on,
            Change::Pending(pending) => self.row.pending = pending,
            Change::Closing => self.row.closing = true,
            Change::Doomed => {
                self.row.doomed = true;
                self.row.closing = true;
            }
            Change::Shut => self.row.shut = true,
            Change::End(outcome) => self.end(outcome),
            Change::Resolve(absolute, decl) => self.resolve(absolute, decl),
        }
    }

    /// Ends a resolve by this declaration.
    fn resolve(&mut self, absolute: Text, decl: OrderedDecl)
        ensures { self.new ≡ set_decl absolute decl (set_pending None self.old) }
    {
        let (decl, orders) = decl.into_parts();
        put(&mut self.row.absolute, absolute);
        put(&mut self.row.decl, decl);
        self.row.pending = None;
        self.orders = orders;
    }

    /// Ends the pending action by an outcome that isn't a new declaration: the row is on after a start
    /// and off after a stop.
    fn end(&mut self, outcome: Outcome)
        ensures { self.new ≡ end_row outcome self.old }
    {
        self.row.pending = None;
        match outcome {
            Outcome::Started => self.row.on = true,
            Outcome::Stopped | Outcome::Killed => self.row.on = false,
            _ => {}
        }
    }
}
