// An entry overwritten where it stands, as insert of a key present, replace, write next and write prev do. No page is
// needed or freed.
// What clauses ask of the pool no type says: the reason stands in the crate lend, src/lib.rt.
ghost use Rattle.std.specs.Prelude.{◌<◌};
ghost use Rattle.lend.specs.Pages.{most, Inside};
ghost use Rattle.tree.specs.Write.{Writes};

use lend::pages;
use page::Entry;

// Another value for the entry at a page's slot; the answer is the value before.
pub fn write(pool: &mut [u64], p: usize, slot: usize, value: u64) -> u64
    requires { Inside p pool.old × (slot < most) }
    ensures { Writes p slot value pool.old pool.new result }
{
    let e = pages::entry_at(pool, p, slot);
    let _ = pages::set_entry(pool, p, slot, Entry { value, ..e });
    e.value
}
