// The exported call of crate runs_api, for programs in other languages: a case text, and two square tables that are lent. A static library and nothing else: the
// call is that of the library crate, with its contract.
#![tactic(auto)]

ghost use Rattle.runs_api.specs.Exported.{TextTables};

use runs_tables::Runs;

// THE TABLES of both headings: rows by the section that runs begin on, in each a byte for every section; sections count from 0.
#[unsafe(no_mangle)]
pub extern "C" fn runs_case(text: &[u8], up: &mut Runs, down: &mut Runs) -> u8
    ensures { TextTables text.now up.old down.old result up.new down.new }
{
    runs_api::runs_case(text, up, down)
}
