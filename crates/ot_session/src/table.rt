//! The forms that a site has made.
ghost use Rattle.std.specs.Prelude.{◌≡◌, [], OnOk, OnErr};
ghost use Rattle.indexmap.specs.IndexMap.{insert_entry};
ghost use Rattle.ot_session.specs.Entries.{is_same_key, form_under};

use crate::limits::MAX_SITES;
use indexmap::IndexMap;
use ot_model::Op;
use std::alloc::{AllocError, Global};
use std::marker::Model;

/// Which form: of which operation, behind how many operations of each site.
#[derive(Clone, Copy, PartialEq, Eq, Hash)]
pub(crate) struct Key {
    pub number: u32,

    /// How many operations of each site, from site 1 on.
    pub counts: [u32; MAX_SITES],
}

/// Forms under their keys, which contracts see as the list of the entries.
#[derive(Drop)]
pub(crate) struct Table {
    forms: IndexMap<Key, Op>,
}

impl Model for Table {
    ghost use Rattle.std.specs.Prelude.{List};
    ghost use Rattle.ot_model.specs.declared.op.Op.{Op};
    ghost use Rattle.ot_session.specs.declared.table.Key.{Key};

    ghost Value = { List (Key × Op) };

    ghost view = { λ t. t.forms.entries };
}

impl Table {
    /// The empty table.
    pub fn new(alloc: Global) -> Table
        ensures { result ≡ [] }
    {
        Table {
            forms: IndexMap::new(alloc),
        }
    }

    /// The form under a key.
    pub fn find(&self, key: &Key) -> Option<Op>
        ensures { result ≡ form_under key.now self.now }
    {
        self.forms.get(key).copied()
    }

    /// Puts a form under a key.
    pub fn store(&mut self, key: Key, form: Op) -> Result<(), AllocError>
        ensures ok { OnOk result (self.new ≡ insert_entry is_same_key self.old key form) }
        ensures err { OnErr result (self.new ≡ self.old) }
    {
        self.forms.insert(key, form)?;
        Ok(())
    }
}
