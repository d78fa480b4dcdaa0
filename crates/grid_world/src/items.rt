ghost use Rattle.std.specs.Prelude.{◌≡◌, ◌<◌, IfOk, OnOk, OnErr, length, slice_set, unwrap_or};

use std::alloc::{AllocError, Global};
use std::marker::Model;
use std::sync::Arc;

/// For each cell, row after row, whether an item lies there. Worlds that follow one another share one table, until one of
/// them changes it.
pub struct Items {
    table: Arc<Vec<bool>>,
}

impl Drop for Items {
    fn drop(self) {
        let Self { table: _ } = self;
    }
}

impl Model for Items {
    ghost use Rattle.std.specs.Prelude.{List, Bool};
    ghost use Rattle.std.specs.Arc.{arc_value};

    ghost Value = { List Bool };

    ghost view = { λ i. (arc_value i.table).items };
}

impl Items {
    /// A table that nobody shares yet: for each cell, row after row, whether an item lies there.
    pub fn new(alloc: Global, table: Vec<bool>) -> Result<Items, AllocError>
        ensures { IfOk result (λ items. items ≡ table.items) }
    {
        match Arc::new(alloc, table) {
            Ok(table) => Ok(Items { table }),
            Err(_) => Err(AllocError),
        }
    }

    /// The same items. Takes constant time.
    pub fn share(&self) -> Result<Items, AllocError>
        ensures { IfOk result (λ items. items ≡ self.now) }
    {
        Ok(Items {
            table: Arc::try_clone(&self.table)?,
        })
    }

    /// For each cell, row after row, whether an item lies there.
    pub fn cells(&self) -> &[bool]
        ensures { result.now ≡ self.now }
    {
        &self.table
    }

    /// Whether an item lies on a cell from now on. A table that is shared is copied first.
    pub fn set(&mut self, cell: usize, lies: bool) -> Result<(), AllocError>
        requires { cell < length self.old }
        ensures set { OnOk result (self.new ≡ slice_set self.old cell lies) }
        ensures unchanged { OnErr result (self.new ≡ self.old) }
    {
        Arc::make_mut(&mut self.table)?[cell] = lies;
        Ok(())
    }
}

/// Items as they are changed, while what they were before is kept and shared until they do. They are seen as a pair: the
/// items, and those of before.
pub(crate) struct ChangedItems<'i> {
    before: &'i Items,
    own: Option<Items>,
}

impl<'i> Drop for ChangedItems<'i> {
    fn drop(self) {
        let Self { before: _, own: _ } = self;
    }
}

impl<'i> Model for ChangedItems<'i> {
    ghost use Rattle.std.specs.Prelude.{List, Bool, unwrap_or};

    ghost Value = { List Bool × List Bool };

    ghost view = { λ c. (unwrap_or c.own c.before.now, c.before.now) };
}

impl<'i> ChangedItems<'i> {
    /// Items, none of which has changed.
    pub(crate) fn of(before: &'i Items) -> ChangedItems<'i>
        ensures { result ≡ (before.now, before.now) }
    {
        ChangedItems { before, own: None }
    }

    /// For each cell, row after row, whether an item lies there.
    pub(crate) fn cells(&self) -> &[bool]
        ensures { result.now ≡ self.now.0 }
    {
        match &self.own {
            Some(own) => own.cells(),
            None => self.before.cells(),
        }
    }

    /// Whether an item lies on a cell from now on.
    pub(crate) fn set(&mut self, cell: usize, lies: bool) -> Result<(), AllocError>
        requires { cell < length self.old.0 }
        ensures ok { OnOk result (self.new.0 ≡ slice_set self.old.0 cell lies) }
        ensures before { self.new.1 ≡ self.old.1 }
        ensures unchanged { OnErr result (self.new ≡ self.old) }
    {
        if self.own.is_none() {
            self.own = Some(self.before.share()?);
        }
        match &mut self.own {
            Some(own) => own.set(cell, lies),
            None => unreachable!(),
        }
    }

    /// The items; none where none has changed.
    pub(crate) fn changed(self) -> Option<Items>
        ensures { unwrap_or result self.entry.1 ≡ self.entry.0 }
    {
        let ChangedItems { before: _, own } = self;
        own
    }
}
