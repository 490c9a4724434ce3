// Where trains can have come from. A way over any number of points is the same back, so a train that stands on a section has come by one of the ways from the
// end behind it: a table of ways in which no section is shut, for a train may leave a closed one.
#![tactic(auto)]

ghost use Rattle.std.specs.Prelude.{◌≡◌};
ghost use Rattle.railway.specs.declared.Railway.{Railway};
ghost use Rattle.railway.specs.Ends.{end_index};
ghost use Rattle.railway_compiled.specs.Table.{Compiled};
ghost use Rattle.solver_predecessors.specs.Behind.{end_behind, Behind};

use railway::{End, Railway, SectionNo};
use railway_compiled::Table;
use railway_routes::Ways;

// The ways of a record's railway to all its sections.
pub fn ways_behind(r: Railway) -> Ways
    ensures { Behind r result }
{
    let links = r.links;
    let none_closed = [false; Railway::SECTIONS as usize];
    railway_routes::ways_of(&links, &none_closed)
}

// The index of the end of section x that a train comes in by; past the ends, where no railway has such a section.
pub fn end_behind(table: &Table, t: u8, x: u8) -> u8
    ensures { (r : Railway) → Compiled r table.now → result ≡ end_index (end_behind r t x) }
{
    let back = railway::opposite(railway_compiled::heading_in(table, t));
    railway::index_of(End::Section(SectionNo(x), back))
}
