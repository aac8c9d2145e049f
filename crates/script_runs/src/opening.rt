//! The flash that a device has behind a GUID partition table: the table is read and repaired before a run.
ghost use Rattle.std.specs.Prelude.{if◌then◌else◌, ◌≡◌, ◌≤◌, Some, None, Ok, Err, IfOk, OnOk, IsErr, IsTrue, IsFalse, is_ok};
ghost use Rattle.flash_core.specs.Counts.{Spends, StaysUnarmed, stops_in};
ghost use Rattle.flash_core.specs.Told.{NothingDirty};
ghost use Rattle.gpt_core.specs.Places.{Fit};
ghost use Rattle.gpt_core.specs.PlacesOf.{places_of};
ghost use Rattle.gpt_core.specs.Repair.{HeadersGuarded, MendsTable, StaysBeside, TouchesToMend};
ghost use Rattle.gpt_core.specs.Table.{FitsTable, table_in_image};
ghost use Rattle.script_runs.specs.ByTable.{StopHasCause, Opens, Waits, goes_on, lacked_by, lacked_in};
ghost use Rattle.script_turns.specs.Powered.{moment};

use crate::done::NoTable;
use flash_core::{Flash, FlashStop};
use gpt_core::{GptStop, PlaceFault, Places, Table, WhichTable, places, read_table, repair_table};
use std::alloc::Global;

/// Why a device has no flash to run on.
#[derive(Clone, Copy)]
pub enum Unopened {
    /// Its partition table lacks something.
    Lacks(NoTable),
    /// Power was lost, or the flash failed.
    Stopped,
    NoMemory,
}

/// The table of a device, which of its copies is to be repaired, and the places that it gives.
#[derive(Drop)]
struct Found {
    table: Table,
    which: WhichTable,
    places: Places,
}

/// The places that a table gives in a device of so many blocks.
fn place(alloc: Global, table: &Table, blocks: u32) -> Result<Places, Unopened>
    requires fits { FitsTable blocks table.now }
    requires device { blocks ≤ 65536 }
    ensures gives { IfOk result (λ p. places_of blocks table.now ≡ Ok p) }
    ensures fit { IfOk result (λ p. Fit blocks p) }
    ensures lacks { (why : NoTable) → result ≡ Err (Unopened.Lacks why) → lacked_by (places_of blocks table.now) ≡ Some why }
    ensures power { IsTrue (goes_on result) }
{
    match places(alloc, table, blocks) {
        Ok(places) => Ok(places),
        Err(PlaceFault::NoStore) => Err(Unopened::Lacks(NoTable::Store)),
        Err(PlaceFault::Replicas(count)) => Err(Unopened::Lacks(NoTable::Replicas(count))),
        Err(PlaceFault::TooSmall) => Err(Unopened::Lacks(NoTable::TooSmall)),
        Err(PlaceFault::NoMemory) => Err(Unopened::NoMemory),
    }
}

/// Reads the table of a device that is on, and looks up the places that it gives.
fn find<D: Flash>(alloc: Global, flash: &mut D) -> Result<Found, Unopened>
    requires on { IsTrue (D.on flash.old) }
    requires unarmed { D.arming flash.old ≡ None }
    ensures table { IfOk result (λ f. IsTrue D.tells
        → table_in_image (D.blocks flash.old) (D.told flash.old).now ≡ Some (f.table, f.which)) }
    ensures fits { IfOk result (λ f. FitsTable (D.blocks flash.old) f.table) }
    ensures gives { IfOk result (λ f. places_of (D.blocks flash.old) f.table ≡ Ok f.places) }
    ensures fit { IfOk result (λ f. Fit (D.blocks flash.old) f.places) }
    ensures lacks { (why : NoTable) → result ≡ Err (Unopened.Lacks why) → IsTrue D.tells
        → lacked_in (D.blocks flash.old) (D.told flash.old).now ≡ Some why }
    ensures content { IsTrue D.tells → D.told flash.new ≡ D.told flash.old }
    ensures power { D.on flash.new ≡ goes_on result }
    ensures waits { Waits (if goes_on result then 0 else 1) (moment D.Flash flash.old)
        (moment D.Flash flash.new) }
    ensures cause { result ≡ Err Unopened.Stopped → StopHasCause (D.counts flash.old) (D.counts flash.new) }
    ensures writes { D.writes flash.new ≡ D.writes flash.old }
    ensures size { D.blocks flash.new ≡ D.blocks flash.old }
{
    let (table, which) = match read_table(alloc, flash) {
        Ok(found) => found,
        Err(GptStop::NoTable) => return Err(Unopened::Lacks(NoTable::Table)),
        Err(GptStop::Flash(_)) => return Err(Unopened::Stopped),
        Err(GptStop::NoMemory) => return Err(Unopened::NoMemory),
    };
    match place(alloc, &table, flash.blocks()) {
        Ok(places) => Ok(Found {
            table,
            which,
            places,
        }),
        Err(why) => Err(why),
    }
}

/// Repairs the copy of the table that is to be repaired.
fn mend<D: Flash>(flash: &mut D, found: &Found) -> Result<(), FlashStop>
    requires on { IsTrue (D.on flash.old) }
    requires unarmed { D.arming flash.old ≡ None }
    requires fits { FitsTable (D.blocks flash.old) found.now.table }
    requires read { IsTrue D.tells → table_in_image (D.blocks flash.old) (D.told flash.old).now
        ≡ Some (found.now.table, found.now.which) }
    ensures mends { IsTrue D.tells → HeadersGuarded (D.blocks flash.old) (D.told flash.old)
        → MendsTable result (D.blocks flash.old) found.now.table (D.told flash.new) }
    ensures beside { IsTrue D.tells → StaysBeside (D.blocks flash.old) found.now.table found.now.which (D.told flash.old)
        (D.told flash.new) }
    ensures touches { TouchesToMend (D.blocks flash.old) found.now.table found.now.which (D.writes flash.old)
        (D.writes flash.new) }
    ensures clean { OnOk result (IsTrue D.tells → NothingDirty (D.told flash.old) → NothingDirty (D.told flash.new)) }
    ensures power { D.on flash.new ≡ is_ok result }
    ensures waits { Waits (stops_in result) (moment D.Flash flash.old)
        (moment D.Flash flash.new) }
    ensures cause { IsErr result → StopHasCause (D.counts flash.old) (D.counts flash.new) }
    ensures size { D.blocks flash.new ≡ D.blocks flash.old }
{
    let mut buffer = [0; 4096];
    repair_table(flash, &found.table, found.which, &mut buffer)
}

/// Powers a device on, reads its partition table, looks up the places of the flash behind it, and repairs the table. Where the
/// table gives no flash nothing is written.
pub fn open<D: Flash>(alloc: Global, flash: &mut D) -> Result<Places, Unopened>
    requires off { IsFalse (D.on flash.old) }
    requires unarmed { D.arming flash.old ≡ None }
    ensures opens { Opens D.tells (D.blocks flash.old) (moment D.Flash flash.old)
        (moment D.Flash flash.new) result }
    ensures fit { IfOk result (λ p. Fit (D.blocks flash.new) p) }
    ensures size { D.blocks flash.new ≡ D.blocks flash.old }
{
    flash.power_on();
    let found = match find(alloc, flash) {
        Ok(found) => found,
        Err(why) => return Err(why),
    };
    match mend(flash, &found) {
        Ok(()) => Ok(found.places),
        Err(_) => Err(Unopened::Stopped),
    }
}
