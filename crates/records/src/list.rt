// Reading and writing lists: a count, and then as many items.
ghost use Rattle.std.specs.Prelude.{◌≡◌, ◌+◌, ◌*◌, ◌^◌, ◌<◌, length, option_copied};
ghost use Rattle.records.specs.Appending.{Room, Wrote};
ghost use Rattle.records.specs.Claims.{each, listed};
ghost use Rattle.records.specs.Parsing.{many, counted, filled, given};

use crate::coded::Coded;
use crate::item::Item;
use crate::limits::Limits;
use crate::reader::Reader;
use crate::writer::Writer;

impl Reader<'_> {
    // The next item, where the limits allow it.
    fn item<T: Item>(&mut self, limits: Limits) -> Option<T>
        ensures { T.Item.parsed_within limits self.old.rest.now ≡ given result self.new.rest.now }
    {
        let item = T::read(self)?;
        item.is_allowed(limits).then_some(item)
    }

    // Items until the table is full.
    fn fill<T: Item>(&mut self, limits: Limits, table: &mut [T]) -> Option<()>
        ensures { many (length table.old) (T.Item.parsed_within limits) self.old.rest.now ≡ filled result table.new self.new.rest.now }
    {
        for slot in table.iter_mut() {
            *slot = self.item(limits)?;
        }
        Some(())
    }

    // A count, and then as many items, at most as many as the table has room for. They are lent from the table.
    pub(crate) fn list<'t, T: Item, const N: usize>(
        &mut self,
        limits: Limits,
        table: &'t mut [T; N],
    ) -> Option<&'t [T]>
        ensures { counted N (T.Item.parsed_within limits) self.old.rest.now ≡ given (option_copied result) self.new.rest.now }
    {
        let count = self.count(N)?;
        let items = &mut table[..count];
        self.fill(limits, items)?;
        Some(items)
    }
}

impl Writer<'_> {
    // Items with no count.
    fn each<T: Item>(&mut self, items: &[T])
        requires { Room self.old (T.most * length items.now) }
        ensures { Wrote self.old self.new (each T.written items.now) }
    {
        for item in items {
            item.write(self);
        }
    }

    // A count, and then the items.
    pub(crate) fn list<T: Item>(&mut self, items: &[T])
        requires few { length items.now < 2 ^ 16 }
        requires room { Room self.old (2 + T.most * length items.now) }
        ensures { Wrote self.old self.new (listed T.written items.now) }
    {
        (items.len() as u16).write(self);
        self.each(items);
    }
}
