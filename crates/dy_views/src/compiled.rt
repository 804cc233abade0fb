//! The libraries that were compiled so far.

ghost use Rattle.std.specs.Prelude.{◌≡◌, ◌<◌, ◌+◌, ◌^◌, length, OnOk};
ghost use Rattle.dy_views.specs.Views as spec;
ghost use Rattle.dy_views.specs.Views.{AreCompiled, AreThere};

use dy_base::{Exports, Items};
use std::alloc::{AllocError, Global};

/// The libraries that were compiled so far, by their numbers: `dylan` is 0, and each stands behind
/// all that it uses.
#[derive(Drop)]
pub struct Compiled {
    /// What each exports, by the places of its own view.
    pub exports: Items<Exports>,
    /// The numbers of the libraries that its use clauses name, in their order, each once.
    pub uses: Items<Items<u32>>,
    /// Its view: the numbers of all that it uses, directly or not, in load order, and its own last.
    pub orders: Items<Items<u32>>,
}

impl Compiled {
    /// No library.
    pub fn new(alloc: Global) -> Self
        ensures none { result ≡ spec.none_compiled }
        ensures compiled { AreCompiled result }
    {
        Compiled {
            exports: Items::new(alloc),
            uses: Items::new(alloc),
            orders: Items::new(alloc),
        }
    }

    /// Puts the library that was compiled next behind the others: what it exports by the places of
    /// its view, the numbers of those that it uses, and its view, as `view_of` tells them. The one
    /// error is want of memory, and then the libraries are of no more use.
    pub fn add(
        &mut self,
        exports: Exports,
        uses: Items<u32>,
        order: Items<u32>,
    ) -> Result<(), AllocError>
        requires compiled { AreCompiled self.old }
        requires fits { length self.old.exports + 1 < 2 ^ 32 }
        requires there { AreThere self.old uses }
        requires order { order ≡ spec.order_of self.old uses }
        ensures added { OnOk result (self.new ≡ spec.with_library self.old exports uses order) }
        ensures compiled { OnOk result (AreCompiled self.new) }
    {
        self.exports.push(exports)?;
        self.uses.push(uses)?;
        self.orders.push(order)?;
        Ok(())
    }
}
