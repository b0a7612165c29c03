//! A database that was opened.
ghost use Rattle.std.specs.Prelude.{◌≡◌, true, false};
ghost use Rattle.database.specs.Cells.{AreRows};
ghost use Rattle.db_engine.specs.Opened.{contents_of};

use std::marker::Model;
use terrain_base::{Params, Summary};

/// A database that was opened: its params, its cells in short, and whether it may still be used. It is seen as these
/// three.
#[derive(Debug, Drop)]
pub struct Opened {
    params: Params,
    rows: Vec<Summary>,
    live: bool,
}

impl Model for Opened {
    ghost use Rattle.database.specs.Cells.{AreRows};
    ghost use Rattle.db_engine.specs.Opened.{Contents, contents_of};

    ghost Value = { Contents };

    ghost view = { λ o. contents_of o.params o.rows.items o.live };

    ghost invariant = { λ o. AreRows o.rows.items };
}

impl Opened {
    /// One that may be used, with these params and these cells in short. They ascend by their keys, and are at most
    /// 4096. Whether a store holds them is the caller's to know.
    pub fn of(params: Params, rows: Vec<Summary>) -> Opened
        requires { AreRows rows.items }
        ensures { result ≡ contents_of params rows.items true }
    {
        Opened {
            params,
            rows,
            live: true,
        }
    }

    /// The params of the database.
    pub fn params(&self) -> Params
        ensures { result ≡ self.now.params }
    {
        self.params
    }

    /// The cells in short. They ascend by their keys, and are at most 4096.
    pub fn summaries(&self) -> &[Summary]
        ensures value { result.now ≡ self.now.rows }
        ensures rows { AreRows self.now.rows }
    {
        &self.rows
    }

    /// Whether it may be used. Where a call has stopped among its changes it may not: the store is to be settled again.
    pub fn live(&self) -> bool
        ensures { result ≡ self.now.live }
    {
        self.live
    }

    // It may not be used while changes are under way.
    pub(crate) fn begin(&mut self)
        ensures { self.new ≡ contents_of self.old.params self.old.rows false }
    {
        self.live = false;
    }

    // The changes are done, and these are the cells now.
    pub(crate) fn end(&mut self, rows: Vec<Summary>)
        requires { AreRows rows.items }
        ensures { self.new ≡ contents_of self.old.params rows.items true }
    {
        self.rows = rows;
        self.live = true;
    }

    // The changes are done, and the cells are as they were.
    pub(crate) fn go_on(&mut self)
        ensures { self.new ≡ contents_of self.old.params self.old.rows true }
    {
        self.live = true;
    }
}
