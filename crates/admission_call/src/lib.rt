// Admission of a grammar's text: refusals 1 to 13 in order, as document 01's page and Req 06 have them, or the table of its grammar.
#![tactic(auto)]

ghost use Rattle.admission.specs.Promised.{Promised};

use text_admission::Admission;

// Any bytes as text, any words as table. Refused, no word of the table changes.
pub fn admit(text: &[u8], table: &mut [u32]) -> Admission
    ensures { Promised text.now table.old table.new result }
{
    text_admission::answer(text, table)
}
