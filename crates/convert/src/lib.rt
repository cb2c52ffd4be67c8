#![tactic(auto)]

ghost use Rattle.std.specs.Prelude.{◌≡◌};
ghost use Rattle.print_bytes.specs.Writing.{with_bytes};
ghost use Rattle.convert_lists.specs.Converting.{converted, converting};
ghost use Rattle.convert_lists.specs.Converting as says;

use convert_lists::{Converted, convert_sheet, refuse};
use forms::House;
use read_arrays::SheetArrays;
use write_lines::MAX_TEXT;

// Converts a text of one house into a text of another, from the first place of the page on: what reading asks, then what the other house asks, and then the
// sheet, without the notes. The lists are long enough for every sheet and the page for every text, so that nothing is refused by 12 or 15.
pub fn convert(from: House, to: House, text: &[u8], page: &mut [u8; MAX_TEXT]) -> Converted
    ensures { (says.reply_of result ≡ converting from to text.now)
        × (page.new ≡ with_bytes page.old 0 (converted from to text.now)) }
{
    let mut arrays = SheetArrays::cleared();
    match arrays.read(from, text) {
        Err(refusal) => refuse(page, refusal),
        Ok(s) => convert_sheet(to, &arrays.lists(s), page),
    }
}
